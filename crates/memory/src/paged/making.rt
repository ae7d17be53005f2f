// Making a paged memory, and giving back what it holds.
ghost use Rattle.std.specs.Prelude.{◌≡◌, vec_len};
ghost use Rattle.memory.specs.Paged.{new_paged, paged_bytes, paged_meaning_of, paged_waiting};
ghost use Rattle.memory.specs.Pages.{window_granule};
ghost use Rattle.memory.specs.Theorems.{OneWindow, SettlesPages};

use crate::access::granule_of;
use crate::page::{Page, settled};
use crate::paged::PagedMemory;
use std::collections::VecDeque;

// The granule of a window at this address, where there can be one.
fn window_granule(address: Option<u32>) -> Option<u32>
    ensures { result ≡ window_granule address }
{
    address.filter(|x| x % 4 == 0).map(granule_of)
}

impl PagedMemory {
    // Pages past the 64th are passed over, and those that are not given are absent. Nothing is refused: a page whose frame
    // is not wholly inside the bytes, or is a lower present page's, is absent, and a window whose address is not a
    // multiple of 4 is none.
    #[tactic(auto, using(crate::proofs::Paging::table_laws))]
    pub fn new(
        bytes: Vec<u8>,
        pages: &[Page],
        window: Option<u32>,
        orders: VecDeque<u32>,
    ) -> PagedMemory
        ensures meaning { paged_meaning_of result ≡
            new_paged bytes.items pages.now window orders.items }
        ensures bytes { paged_bytes result ≡ bytes.items }
        ensures waiting { paged_waiting result ≡ orders.items }
        ensures pages { SettlesPages (vec_len bytes) pages.now }
        ensures window { OneWindow (paged_meaning_of result) }
    {
        let pages = settled(pages, bytes.len());
        PagedMemory {
            bytes,
            pages,
            window: window_granule(window),
            waiting: orders,
        }
    }

    // The caller's bytes, as they are now.
    pub fn bytes(&self) -> &[u8]
        ensures { result.now ≡ paged_bytes self.now }
    {
        &self.bytes
    }

    // The order words that wait, the first to come first.
    pub fn waiting(&self) -> &VecDeque<u32>
        ensures { result.now.items ≡ paged_waiting self.now }
    {
        &self.waiting
    }

    // Gives back the caller's bytes and the order words that still wait.
    pub fn into_parts(self) -> (Vec<u8>, VecDeque<u32>)
        ensures bytes { result.0.items ≡ paged_bytes self }
        ensures waiting { result.1.items ≡ paged_waiting self }
    {
        (self.bytes, self.waiting)
    }
}
