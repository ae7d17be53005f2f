// The flat memory: all of the caller's bytes, present and writable up to the last whole granule.
ghost use Rattle.std.specs.Prelude.{◌≡◌};
ghost use Rattle.memory.specs.Access.{granule};
ghost use Rattle.memory.specs.Blank.{flat_blank};
ghost use Rattle.memory.specs.Calls.{read_after, read_answer, write_after, write_answer};
ghost use Rattle.memory.specs.Flat.{flat_bytes, flat_meaning, flat_meaning_of, flat_written, is_whole};
ghost use Rattle.memory.specs.Meaning.{marks_at};

use crate::access::{Direction, granule_of};
use crate::bytes::{number_at, store_at};
use crate::fault::Fault;
use crate::interface::Memory;
use crate::marks::Marks;

#[derive(PartialEq, Eq, Debug, Drop)]
pub struct FlatMemory {
    bytes: Vec<u8>,
}

impl FlatMemory {
    pub fn new(bytes: Vec<u8>) -> FlatMemory
        ensures meaning { flat_meaning_of result ≡ flat_meaning bytes.items }
        ensures bytes { flat_bytes result ≡ bytes.items }
    {
        FlatMemory { bytes }
    }

    // The caller's bytes, as they are now.
    pub fn bytes(&self) -> &[u8]
        ensures { result.now ≡ flat_bytes self.now }
    {
        &self.bytes
    }

    // Gives the caller's bytes back.
    pub fn into_bytes(self) -> Vec<u8>
        ensures { result.items ≡ flat_bytes self }
    {
        self.bytes
    }

    // Whether the address lies in a whole granule.
    fn is_whole(&self, x: u32) -> bool
        ensures { result ≡ is_whole (flat_bytes self.now) (granule x) }
    {
        (granule_of(x) as usize) < self.bytes.len() / 4
    }

    // What an access at `x` meets.
    #[tactic(auto, unfolding(crate::specs::Flat::flat_meaning))]
    fn marks(&self, x: u32) -> Marks
        ensures { result ≡ marks_at (flat_meaning_of self.now) (granule x) }
    {
        let whole = self.is_whole(x);
        Marks {
            present: whole,
            writable: whole,
            window: false,
            waiting: false,
        }
    }
}

// Read, write and peek of both memories share `Marks` and the numbers in bytes. A helper for what is left would be longer:
// the place of the bytes and the window differ.
impl Memory for FlatMemory {
    ghost meaning = { flat_meaning_of };

    ghost blank = { λ s. flat_blank (flat_bytes s) };

    fn read(&mut self, x: u32, w: u32) -> Result<u32, Fault>
        ensures answer { result ≡ read_answer (flat_meaning_of self.old) x w }
        ensures after { flat_meaning_of self.new ≡ read_after (flat_meaning_of self.old) x w }
        ensures bytes { flat_bytes self.new ≡ flat_bytes self.old }
    {
        self.marks(x).check(Direction::Read, x, w)?;
        Ok(number_at(&self.bytes, x as usize, w))
    }

    fn write(&mut self, x: u32, w: u32, v: u32) -> Result<(), Fault>
        ensures answer { result ≡ write_answer (flat_meaning_of self.old) x w }
        ensures after { flat_meaning_of self.new ≡ write_after (flat_meaning_of self.old) x w v }
        ensures bytes { flat_bytes self.new ≡ flat_written (flat_bytes self.old) x w v }
    {
        self.marks(x).check(Direction::Write, x, w)?;
        store_at(&mut self.bytes, x as usize, w, v);
        Ok(())
    }

    fn peek(&self, x: u32, w: u32) -> Option<u32> {
        if !self.marks(x).shows(x, w) {
            return None;
        }
        Some(number_at(&self.bytes, x as usize, w))
    }
}
