// What the commands print of a program.
ghost use Rattle.std.specs.Prelude.{◌≤◌, IfOk, vec_len};
ghost use Rattle.std.specs.Iterator.{IsFinite};

use crate::failure::Failure;
use std::alloc::{AllocError, Global};
use std::fmt;
use std::fmt::Write;
use text::assembler::assemble;
use text::listing::Listed;

// The most instructions of a program.
pub const MOST_INSTRUCTIONS: usize = 1024;

// The words of a program.
pub fn words(alloc: Global, text: &str) -> Result<Vec<u64>, Failure>
    ensures { IfOk result (λ words. vec_len words ≤ MOST_INSTRUCTIONS) }
{
    let assembled = assemble(alloc, text, MOST_INSTRUCTIONS);
    assembled.try_map_err(|error| Ok(Failure::Input(error.to_string(alloc)?)))
}

// A packed word, as `pack` shows it.
#[derive(Clone, Copy)]
struct PackedWord(u64);

impl fmt::Display for PackedWord {
    fn fmt<W: fmt::Write>(&self, f: &mut fmt::Formatter<W>) -> fmt::Result {
        write!(f, "0x{:016x}", self.0)
    }
}

// A line for each item.
fn lines<I>(alloc: Global, items: I) -> Result<String, AllocError>
where
    I: Iterator + Drop,
    I::Item: fmt::Display + Drop,
    requires can { I.can_next items }
    requires ends { IsFinite (I.remaining items) }
{
    let mut lines = String::new(alloc);
    for item in items {
        writeln!(lines, "{item}")?;
    }
    Ok(lines)
}

// A packed word for each instruction.
pub fn packed(alloc: Global, words: &[u64]) -> Result<String, AllocError> {
    lines(alloc, words.iter().copied().map(PackedWord))
}

// A listing line for each word.
pub fn listing(alloc: Global, words: &[u64]) -> Result<String, AllocError> {
    let placed = words.iter().copied().enumerate();
    lines(alloc, placed.map(|(place, word)| Listed { place, word }))
}
