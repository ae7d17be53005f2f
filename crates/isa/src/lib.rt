// Instructions of the order core and their 64-bit words: one word per instruction, one instruction per accepted word.
#![tactic(auto)]

pub mod codec;
pub mod display;
pub mod fields;
pub mod instruction;
pub mod kind;
pub mod refusal;
mod table;
