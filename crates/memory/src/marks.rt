// What an access meets at its granule, and the order in which faults come: the one place in the code that has it.
ghost use Rattle.std.specs.Prelude.{◌≡◌};
ghost use Rattle.memory.specs.Calls.{refused_or};
ghost use Rattle.memory.specs.Meaning.{first_fault, shows_at};
ghost use Rattle.memory.specs.Theorems.{AccessLaws};

use crate::access::{Direction, is_aligned};
use crate::fault::Fault;

#[derive(Clone, Copy, PartialEq, Eq, Debug)]
pub struct Marks {
    pub present: bool,
    pub writable: bool,
    pub window: bool,
    // an order word waits for the window
    pub waiting: bool,
}

impl Marks {
    // Refuses an access that meets these marks with its first fault. Every read and every write goes through this call, so
    // the laws of an access stand on it.
    #[tactic(auto, using(crate::proofs::Laws::access_laws))]
    pub fn check(self, direction: Direction, x: u32, w: u32) -> Result<(), Fault>
        ensures answer { result ≡ refused_or (first_fault self direction x w) }
        ensures laws { AccessLaws }
    {
        let write = direction.is_write();
        if !is_aligned(x, w) {
            Err(Fault::Shape)
        } else if !self.present {
            Err(Fault::Absent)
        } else if write && !self.writable {
            Err(Fault::ReadOnly)
        } else if self.window && (write || w != 4) {
            Err(Fault::Window)
        } else if self.window && !self.waiting {
            Err(Fault::NoOrder)
        } else {
            Ok(())
        }
    }

    // Whether a peek that meets these marks answers: a read would neither fault nor touch a window.
    pub fn shows(self, x: u32, w: u32) -> bool
        ensures { result ≡ shows_at self x w }
    {
        !self.window && self.check(Direction::Read, x, w).is_ok()
    }
}
