// Programs from their lines: one pass that drafts each instruction, then the places of the labels.
ghost use Rattle.std.specs.Prelude.{◌≡◌, ◌≤◌, IfOk, IfErr, vec_len, OnOk, OnErr};
ghost use Rattle.text.specs.Drafts.{AllBecome, Grown, IsUnchanged, next_mark};
ghost use Rattle.text.specs.Marks.{OnlyAdds};

use crate::drafts::Drafts;
use crate::labels::{Labels, Mark};
use crate::problem::{Problem, TextError};
use std::alloc::{AllocError, Global};

// A program of at most so many instructions, line by line.
#[derive(Drop)]
pub(crate) struct Assembler<'a> {
    alloc: Global,
    drafts: Drafts<'a>,
    labels: Labels<'a>,
}

// The words of a line before any comment.
fn words_of<'a>(alloc: Global, text: &'a str) -> Result<Vec<&'a str>, AllocError> {
    let code = text.split_once('#').map_or(text, |(code, _)| code);
    code.split_ascii_whitespace().collect(alloc)
}

impl<'a> Assembler<'a> {
    pub(crate) fn new(alloc: Global, most: usize) -> Assembler<'a>
        ensures most { result.drafts.most ≡ most }
        ensures empty { vec_len result.drafts.items ≡ 0 }
    {
        Assembler {
            alloc,
            drafts: Drafts::new(alloc, most),
            labels: Labels::new(alloc),
        }
    }

    // The next line of the program, which messages call by its number.
    pub(crate) fn line(&mut self, number: usize, text: &'a str) -> Result<(), TextError<'a>>
        ensures ok { OnOk result (Grown self.old.drafts self.new.drafts) }
        ensures err { OnErr result (IsUnchanged self.old.drafts self.new.drafts) }
        ensures named { IfErr result (λ e. e.line ≡ number) }
        ensures marks { OnlyAdds self.old.labels self.new.labels (next_mark self.old.drafts number) }
    {
        self.read(number, text).map_err(|problem| TextError {
            line: number,
            problem,
        })
    }

    fn read(&mut self, number: usize, text: &'a str) -> Result<(), Problem<'a>>
        ensures ok { OnOk result (Grown self.old.drafts self.new.drafts) }
        ensures err { OnErr result (IsUnchanged self.old.drafts self.new.drafts) }
        ensures marks { OnlyAdds self.old.labels self.new.labels (next_mark self.old.drafts number) }
    {
        let words = words_of(self.alloc, text)?;
        let mark = self.next_mark(number);
        let rest = self.labels.mark_all(words.as_slice(), mark)?;
        self.drafts.add(number, rest)
    }

    // Where the labels of a line stand: at the place of the next instruction.
    fn next_mark(&self, line: usize) -> Mark
        ensures place { result.place ≡ vec_len self.now.drafts.items }
        ensures line { result.line ≡ line }
    {
        Mark {
            place: self.drafts.len(),
            line,
        }
    }

    // The words of the program.
    pub(crate) fn finish(self) -> Result<Vec<u64>, TextError<'a>>
        ensures len { IfOk result (λ v. vec_len v ≡ vec_len self.entry.drafts.items) }
        ensures words { IfOk result (λ v.
            AllBecome self.entry.labels self.entry.drafts.items.items v.items) }
    {
        self.drafts.words(self.alloc, &self.labels)
    }
}

// The words of a program of at most `most` instructions.
pub fn assemble<'a>(alloc: Global, text: &'a str, most: usize) -> Result<Vec<u64>, TextError<'a>>
    ensures { IfOk result (λ v. vec_len v ≤ most) }
{
    let mut assembler = Assembler::new(alloc, most);
    for (number, line) in (1..).zip(text.lines()) {
        assembler.line(number, line)?;
    }
    assembler.finish()
}
