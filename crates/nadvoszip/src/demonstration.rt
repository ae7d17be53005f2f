// The built-in program: an order controller, shown as text, packed, unpacked again and listed.
ghost use Rattle.std.specs.Prelude.{◌≡◌, count_by, is_ok};
ghost use Rattle.isa.specs.Words.{unpacked};

use crate::failure::Failure;
use crate::output::{listing, words};
use isa::codec::{pack, unpack};
use std::alloc::Global;

const ORDERS: &str = "\
# An order controller looks at three order records and has each order cut once.
        const r1 64         # the first order record
        const r2 256        # the saw's register
        const r3 1          # the mark of an order that is cut
        const r4 8          # bytes of a record
        const r5 3          # orders to look at
next:   load 1 r6 [r1+4]    # the order's cut mark
        beq r6 r3 seen      # cut already
        load 4 r7 [r1]      # the order's cut command
        store 4 [r2] r7     # the saw cuts
        store 1 [r1+4] r3   # the order is marked as cut
seen:   add r1 r1 r4        # the next record
        sub r5 r5 r3        # one order less
        bne r5 r0 next
        halt
";

// Whether a word unpacks and then packs to itself: every accepted word does.
fn comes_back(word: u64) -> bool
    ensures { result ≡ is_ok (unpacked word) }
{
    unpack(word).is_ok_and(|instruction| pack(&instruction) == word)
}

fn count_back(words: &[u64]) -> usize
    ensures { result ≡ count_by (λ w. is_ok (unpacked w)) words.now }
{
    words.iter().filter(|word| comes_back(**word)).count()
}

pub fn report(alloc: Global) -> Result<String, Failure> {
    let words = words(alloc, ORDERS)?;
    let listing = listing(alloc, words.as_slice())?;
    let count = words.len();
    let same = count_back(words.as_slice());
    Ok(format!(in alloc;
        "The program as text:\n\n{ORDERS}\nPacked, unpacked and listed:\n\n{listing}\n\
        {count} instructions packed; {same} of their words unpack to an instruction that packs to the same word.\n"
    )?)
}
