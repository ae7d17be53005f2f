// Words as a listing shows them.
use isa::codec::unpack;
use std::fmt;

// A word at its place, with the instruction that it is, or why it is none.
#[derive(Clone, Copy, PartialEq, Eq, Debug)]
pub struct Listed {
    pub place: usize,
    pub word: u64,
}

impl fmt::Display for Listed {
    fn fmt<W: fmt::Write>(&self, f: &mut fmt::Formatter<W>) -> fmt::Result {
        let Listed { place, word } = *self;
        write!(f, "{place}  0x{word:016x}  ")?;
        // two arms, since what they show is of two types
        match unpack(word) {
            Ok(instruction) => write!(f, "{instruction}"),
            Err(refusal) => write!(f, "{refusal}"),
        }
    }
}
