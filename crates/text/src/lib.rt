// The text of instructions: programs and listings into words, and words into listings.
#![tactic(auto)]

pub mod assembler;
mod drafts;
mod form;
mod labels;
mod line;
pub mod listing;
mod name;
mod numeral;
mod operand;
pub mod problem;
mod statement;
