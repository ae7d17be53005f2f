// Memories of the order core: the interface by its meaning, its faults, the flat memory and the paged one with an order
// window.
#![tactic(auto)]

pub mod access;
mod bytes;
pub mod fault;
pub mod flat;
pub mod interface;
pub mod marks;
pub mod page;
pub mod paged;
