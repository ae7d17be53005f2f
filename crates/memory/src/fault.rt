// Why an access is refused.
ghost use Rattle.std.specs.Prelude.{◌≡◌, Some};
ghost use Rattle.memory.specs.Faults.{fault_number, fault_reason, fault_text};

use std::error::Error;
use std::fmt;

#[derive(Clone, Copy, PartialEq, Eq, Debug)]
pub enum Fault {
    // the width is not 1, 2 or 4, or the address is not a multiple of it
    Shape = 1,
    // the granule is not present
    Absent = 2,
    // a write to a granule that is not writable
    ReadOnly = 3,
    // a write to a window, or a read of a part of one
    Window = 4,
    // a window is read while no order word waits
    NoOrder = 5,
}

impl Fault {
    pub fn number(self) -> u64
        ensures { result ≡ fault_number self }
    {
        self as u64
    }

    // The broken rule in words.
    fn reason(self) -> &'static str
        ensures { result.now ≡ fault_reason self }
    {
        match self {
            Fault::Shape => "the width is not 1, 2 or 4, or the address is not a multiple of it",
            Fault::Absent => "nothing is present at the address",
            Fault::ReadOnly => "the address is not writable",
            Fault::Window => "the order window is only read, and only in whole words",
            Fault::NoOrder => "no order word is waiting",
        }
    }
}

// By hand: a derived Display would not promise the text. (What refuses a word has the same shape, in a crate that this
// one does not rest on.)
impl fmt::Display for Fault {
    ghost output = { λ f. Some (fault_text f) };

    fn fmt<W: fmt::Write>(&self, f: &mut fmt::Formatter<W>) -> fmt::Result {
        let number = self.number();
        let reason = self.reason();
        write!(f, "fault {number}: {reason}")
    }
}

impl Error for Fault {}
