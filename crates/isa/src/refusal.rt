// Why fields or a word make no instruction.
ghost use Rattle.std.specs.Prelude.{◌≡◌, Some};
ghost use Rattle.isa.specs.Refusals.{reason_of, refusal_number, refusal_text};

use std::error::Error;
use std::fmt;

// Each with its number.
#[derive(Clone, Copy, PartialEq, Eq, Debug)]
pub enum WordRefusal {
    // the kind is above 19
    Kind = 11,
    // the width is above 2, or not 0 in a kind without one
    Width = 12,
    // a register that the kind uses is outside its range
    Register = 13,
    // an unused field or a zero bit is not 0, or home or imm is too large
    Rest = 14,
}

impl WordRefusal {
    pub fn number(self) -> u64
        ensures { result ≡ refusal_number self }
    {
        self as u64
    }

    // The broken rule in words.
    fn reason(self) -> &'static str
        ensures { result.now ≡ reason_of self }
    {
        match self {
            WordRefusal::Kind => "no kind has this number",
            WordRefusal::Width => "the width is above 2, or not 0 in a kind without one",
            WordRefusal::Register => "a register is outside the range of its kind",
            WordRefusal::Rest =>
                "an unused field or a zero bit is not 0, or home or imm is too large",
        }
    }
}

// By hand: a derived Display would not promise the text.
impl fmt::Display for WordRefusal {
    ghost output = { λ e. Some (refusal_text e) };

    fn fmt<W: fmt::Write>(&self, f: &mut fmt::Formatter<W>) -> fmt::Result {
        let number = self.number();
        let reason = self.reason();
        write!(f, "refused {number}: {reason}")
    }
}

impl Error for WordRefusal {}
