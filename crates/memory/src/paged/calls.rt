// Reading, writing and peeking of a paged memory.
ghost use Rattle.std.specs.Prelude.{◌≡◌, ◌/◌, drop};
ghost use Rattle.std.specs.List.{slice_get};
ghost use Rattle.std.specs.Option.{ok_or};
ghost use Rattle.memory.specs.declared.fault.Fault.TheVariants.{NoOrder};
ghost use Rattle.memory.specs.Access.{granule};
ghost use Rattle.memory.specs.Blank.{paged_blank};
ghost use Rattle.memory.specs.Calls.{read_after, read_answer, write_after, write_answer};
ghost use Rattle.memory.specs.Meaning.{marks_at};
ghost use Rattle.memory.specs.Paged.{paged_meaning_of, paged_bytes, paged_written};
ghost use Rattle.memory.specs.Pages.{is_window, page_at, place_in};

use crate::access::{Direction, granule_of};
use crate::bytes::{number_at, store_at};
use crate::fault::Fault;
use crate::interface::Memory;
use crate::marks::Marks;
use crate::page::{PAGE_SIZE, Page, page_at};
use crate::paged::PagedMemory;
use std::collections::VecDeque;

// The first waiting word. A queue gives it up without moving the others.
fn take_word(waiting: &mut VecDeque<u32>) -> Result<u32, Fault>
    ensures answer { result ≡ ok_or (slice_get waiting.old.items 0) NoOrder }
    ensures after { waiting.new.items ≡ drop 1 waiting.old.items }
{
    waiting.pop_front().ok_or(Fault::NoOrder)
}

impl PagedMemory {
    // The page of an address; past the last one nothing is present.
    fn page(&self, x: u32) -> Page
        ensures { result ≡ page_at self.now.pages (x / 256) }
    {
        page_at(&self.pages, (x / PAGE_SIZE) as usize)
    }

    fn is_window(&self, x: u32) -> bool
        ensures { result ≡ is_window self.now.window (granule x) }
    {
        self.window == Some(granule_of(x))
    }

    // What an access at `x` meets.
    #[tactic(auto, using(crate::specs::Blank::page_of_granule), unfolding(crate::specs::Pages::paged_meaning))]
    fn marks(&self, x: u32) -> Marks
        ensures { result ≡ marks_at (paged_meaning_of self.now) (granule x) }
    {
        let page = self.page(x);
        Marks {
            present: page.present,
            writable: page.writable,
            window: self.is_window(x),
            waiting: !self.waiting.is_empty(),
        }
    }

    // Where the byte at `x` stands in the caller's bytes.
    fn place(&self, x: u32) -> usize
        ensures { result ≡ place_in self.now.pages x }
    {
        PAGE_SIZE as usize * self.page(x).frame as usize + (x % PAGE_SIZE) as usize
    }
}

impl Memory for PagedMemory {
    ghost meaning = { paged_meaning_of };

    ghost blank = { λ s. paged_blank s.pages s.window (paged_bytes s) s.waiting.items };

    fn read(&mut self, x: u32, w: u32) -> Result<u32, Fault>
        ensures answer { result ≡ read_answer (paged_meaning_of self.old) x w }
        ensures after { paged_meaning_of self.new ≡ read_after (paged_meaning_of self.old) x w }
        ensures bytes { paged_bytes self.new ≡ paged_bytes self.old }
    {
        self.marks(x).check(Direction::Read, x, w)?;
        if self.is_window(x) {
            return take_word(&mut self.waiting);
        }
        Ok(number_at(&self.bytes, self.place(x), w))
    }

    fn write(&mut self, x: u32, w: u32, v: u32) -> Result<(), Fault>
        ensures answer { result ≡ write_answer (paged_meaning_of self.old) x w }
        ensures after { paged_meaning_of self.new ≡ write_after (paged_meaning_of self.old) x w v }
        ensures bytes { paged_bytes self.new ≡ paged_written self.old x w v }
    {
        self.marks(x).check(Direction::Write, x, w)?;
        let at = self.place(x);
        store_at(&mut self.bytes, at, w, v);
        Ok(())
    }

    fn peek(&self, x: u32, w: u32) -> Option<u32> {
        if !self.marks(x).shows(x, w) {
            return None;
        }
        Some(number_at(&self.bytes, self.place(x), w))
    }
}
