// The pages of a paged memory, and what becomes of them when it is made.
ghost use Rattle.std.specs.Prelude.{◌≡◌};
ghost use Rattle.memory.specs.Pages.{has_frame, holds_frame, is_inside, page_at, settled, settled_page};

pub const PAGES: usize = 64;

// The bytes of a page, and of a frame.
pub const PAGE_SIZE: u32 = 256;

// A mark beside a number, as the rules have it: by a frame that may be there or not, which was tried, a page takes 12 bytes in
// place of 8, and a write 1.4 times the time.
#[derive(Clone, Copy, PartialEq, Eq, Debug)]
pub struct Page {
    pub present: bool,
    pub writable: bool,
    // frame F is bytes 256 F to 256 F + 255 of the caller's
    pub frame: u32,
}

impl Page {
    pub const ABSENT: Page = Page {
        present: false,
        writable: false,
        frame: 0,
    };

    // Whether the page is present and has this frame.
    fn holds(&self, frame: u32) -> bool
        ensures { result ≡ holds_frame frame self.now }
    {
        self.present && self.frame == frame
    }
}

// Whether one of these pages is present and has this frame.
fn has_frame(pages: &[Page], frame: u32) -> bool
    ensures { result ≡ has_frame pages.now frame }
{
    pages.iter().any(|page| page.holds(frame))
}

// Whether the frame lies wholly inside `size` bytes.
fn is_inside(frame: u32, size: usize) -> bool
    ensures { result ≡ is_inside size frame }
{
    PAGE_SIZE as usize * frame as usize + PAGE_SIZE as usize <= size
}

// The page given, over `size` bytes and above the `lower` pages: present only where its frame lies wholly inside and is no
// lower present page's.
fn settle_page(page: Page, lower: &[Page], size: usize) -> Page
    ensures { result ≡ settled_page size lower.now page }
{
    Page {
        present: page.present && is_inside(page.frame, size) && !has_frame(lower, page.frame),
        ..page
    }
}

// The page at this place, absent where there is none.
#[tactic(auto, using(std::proofs::lemmas::Option::gets))]
pub(crate) fn page_at(pages: &[Page], place: usize) -> Page
    ensures { result ≡ page_at pages.now place }
{
    pages.get(place).copied().unwrap_or(Page::ABSENT)
}

// The table of the pages given, settled from the lowest up: those past its end are passed over, and the others are absent.
pub(crate) fn settled(given: &[Page], size: usize) -> [Page; PAGES]
    ensures { result ≡ settled size given.now PAGES }
{
    let mut table = [Page::ABSENT; PAGES];
    let fitting = &given[..given.len().min(PAGES)];
    // by its place, since a page is settled above those that the table has below it
    for (place, page) in fitting.iter().enumerate() {
        table[place] = settle_page(*page, &table[..place], size);
    }
    table
}
