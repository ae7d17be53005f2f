// What is wrong with a line of instruction text, and how that is told.
ghost use Rattle.std.specs.Prelude.{◌≡◌};
ghost use Rattle.text.specs.declared.problem.Problem.TheVariants.{Memory, Refused};

use isa::kind::Kind;
use isa::refusal::WordRefusal;
use std::alloc::{AllocError, AllocFailed};
use std::fmt;
use thiserror::Error;

#[derive(Clone, Copy, PartialEq, Eq, Debug, Error)]
pub enum Problem<'a> {
    #[error("unknown mnemonic {}", Quoted(*.0))]
    UnknownMnemonic(&'a str),
    #[error("too {} words: {kind} takes {wanted} operands", amount(*.given, *.wanted))]
    OperandCount {
        kind: Kind,
        wanted: usize,
        given: usize,
    },
    #[error("{} is not a register", Quoted(*.0))]
    NotRegister(&'a str),
    #[error("{}: registers are r0 to r63", Quoted(*.0))]
    RegisterTooLarge(&'a str),
    #[error("{} is not a number", Quoted(*.0))]
    NotNumber(&'a str),
    #[error("{} is out of range, 0 to {most}", Quoted(*.word))]
    NumberTooLarge {
        word: &'a str,
        most: u64,
    },
    #[error("{}: the offset is out of range, -32768 to 32767", Quoted(*.0))]
    OffsetTooLarge(&'a str),
    #[error("{} is not a width: 1, 2 or 4", Quoted(*.0))]
    NotWidth(&'a str),
    #[error("{} is not an address", Quoted(*.0))]
    NotAddress(&'a str),
    #[error("{} is not a word: 0x and 1 to 16 hex digits", Quoted(*.0))]
    NotWord(&'a str),
    #[error("{} is not a place or a label", Quoted(*.0))]
    NotTarget(&'a str),
    #[error("{} is not a label name", Quoted(*.0))]
    NotLabel(&'a str),
    #[error("label {} is defined in line {first} too", Quoted(*.label))]
    DefinedTwice {
        label: &'a str,
        first: usize,
    },
    #[error("label {} is not defined", Quoted(*.0))]
    Undefined(&'a str),
    #[error("more than {0} instructions")]
    TooManyInstructions(usize),
    #[error("more than {0} labels")]
    TooManyLabels(usize),
    // the fields make no instruction
    #[error(transparent)]
    Refused(WordRefusal),
    // a listing's line stands at another place than it says
    #[error("{} is not the place of this line, {place}", Quoted(*.word))]
    WrongPlace {
        word: &'a str,
        place: usize,
    },
    // a listing's text is not that of its word
    #[error("the text does not agree with the word 0x{0:016x}")]
    Disagrees(u64),
    #[error("out of memory")]
    Memory,
}

// Whether few or many words were given.
fn amount(given: usize, wanted: usize) -> &'static str {
    if given < wanted { "few" } else { "many" }
}

// A word of the input as a message shows it: cut where it is long, and without control characters.
#[derive(Clone, Copy)]
struct Quoted<'a>(&'a str);

impl fmt::Display for Quoted<'_> {
    fn fmt<W: fmt::Write>(&self, f: &mut fmt::Formatter<W>) -> fmt::Result {
        write!(f, "'")?;
        for c in self.0.chars().take(SHOWN).filter(|c| *c >= ' ') {
            write!(f, "{c}")?;
        }
        if self.0.chars().nth(SHOWN).is_some() {
            write!(f, "..")?;
        }
        write!(f, "'")
    }
}

// How many characters of a word a message shows.
const SHOWN: usize = 32;

// The conversions say which problem they give, which the derive's would not.
impl From<AllocError> for Problem<'_> {
    ghost from_gives = { λ _ r. r ≡ Memory };

    fn from(_e: AllocError) -> Self {
        Problem::Memory
    }
}

impl<T: Drop> From<AllocFailed<T>> for Problem<'_> {
    ghost from_gives = { λ _ r. r ≡ Memory };

    fn from(_e: AllocFailed<T>) -> Self {
        Problem::Memory
    }
}

impl From<WordRefusal> for Problem<'_> {
    ghost from_gives = { λ refusal r. r ≡ Refused refusal };

    fn from(refusal: WordRefusal) -> Self {
        Problem::Refused(refusal)
    }
}

#[derive(Clone, Copy, PartialEq, Eq, Debug, Error)]
#[error("line {line}: {problem}")]
pub struct TextError<'a> {
    pub line: usize,
    pub problem: Problem<'a>,
}
