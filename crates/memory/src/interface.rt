// A memory by its meaning: what each access answers and leaves is an equation between the meanings before and after.
ghost use Rattle.std.specs.Prelude.{◌≡◌, ℕ, false, not, ◌&&◌};
ghost use Rattle.memory.specs.Access.{granule};
ghost use Rattle.memory.specs.Calls.{peek_answer, read_after, read_answer, write_after, write_answer};
ghost use Rattle.memory.specs.Meaning.{Meaning};

use crate::fault::Fault;

// An access is asked by its address and its width, and not by a struct of the two: any numbers may be asked, and nobody
// keeps them.
pub trait Memory {
    ghost meaning: { Self → Meaning };

    // The number in `w` bytes at `x`, or the first order word where that is a window.
    fn read(&mut self, x: u32, w: u32) -> Result<u32, Fault>
        ensures answer { result ≡ read_answer (meaning self.old) x w }
        ensures after { meaning self.new ≡ read_after (meaning self.old) x w };

    // Stores the low `w` bytes of `v` at `x`.
    fn write(&mut self, x: u32, w: u32, v: u32) -> Result<(), Fault>
        ensures answer { result ≡ write_answer (meaning self.old) x w }
        ensures after { meaning self.new ≡ write_after (meaning self.old) x w v };

    // The number that a read would answer, where that read would neither fault nor touch a window.
    fn peek(&self, x: u32, w: u32) -> Option<u32>
        ensures { result ≡ peek_answer (meaning self.now) x w };

    // a byte that has no value counts as 0
    ghost blank: { (s : Self) (a : ℕ)
        → ((meaning s).present (granule a) && not ((meaning s).window (granule a))) ≡ false
        → (meaning s).byte a ≡ 0 };
}
