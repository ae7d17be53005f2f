// The paged memory: 64 pages over frames of the caller's bytes, at most one window granule, and the order words that
// wait for it. Its calls stand in the modules below, since they cite definitions that name this struct.
ghost use Rattle.std.specs.Prelude.{vec_len};
ghost use Rattle.memory.specs.Pages.{FramesApart, FramesInside};

mod calls;
mod making;

use crate::page::{PAGES, Page};
use std::collections::VecDeque;

#[derive(PartialEq, Eq, Debug, Drop)]
pub struct PagedMemory {
    bytes: Vec<u8>,
    // settled: a page whose frame cannot be used is absent here
    pages: [Page; PAGES],
    // the window's granule
    window: Option<u32>,
    waiting: VecDeque<u32>,
    ghost inside: { FramesInside (vec_len bytes) pages },
    ghost apart: { FramesApart pages },
}
