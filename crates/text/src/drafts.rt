// What the lines of a program gave, and the words that they become once every label has its place.
ghost use Rattle.std.specs.Prelude.{◌≡◌, ℕ, ◌+◌, ◌≤◌, [], ◌∷◌, ◌++◌, IfOk, Some, vec_len, OnOk, OnErr};
ghost use Rattle.std.specs.Result.{result_ok};
ghost use Rattle.text.specs.Texts.{texts};

use crate::labels::Labels;
use crate::line::draft;
use crate::problem::{Problem, TextError};
use crate::statement::{Draft, word_of};
use isa::fields::Fields;
use std::alloc::Global;

// What a line gave, with the line's number for messages.
#[derive(Clone, Copy, PartialEq, Eq, Debug)]
pub(crate) struct Drafted<'a> {
    pub draft: Draft<'a>,
    pub line: usize,
}

impl<'a> Drafted<'a> {
    ghost use Rattle.text.specs.Drafts.{draft_word};

    // The word of the draft.
    #[tactic(auto, unfolding(crate::specs::Drafts::draft_word))]
    fn word(&self, labels: &Labels<'a>) -> Result<u64, Problem<'a>>
        ensures { result_ok result ≡ draft_word labels.now self.now.draft }
    {
        match self.draft {
            Draft::Word(word) => Ok(word),
            Draft::Branch { fields, label } => {
                let place = labels.place_of(label).ok_or(Problem::Undefined(label))?;
                let imm = place as u64;
                word_of(Fields { imm, ..fields })
            }
        }
    }

    // Puts the word of the draft behind the others.
    fn put(&self, labels: &Labels<'a>, words: &mut Vec<u64>) -> Result<(), Problem<'a>>
        ensures len { OnOk result (vec_len words.new ≡ vec_len words.old + 1) }
        ensures items { OnOk result ((n : ℕ) × (Some n ≡ draft_word labels.now self.now.draft)
            × (words.new.items ≡ words.old.items ++ n ∷ [])) }
    {
        words.push(self.word(labels)?)?;
        Ok(())
    }
}

// The drafts of a program of at most `most` instructions.
#[derive(Drop)]
pub(crate) struct Drafts<'a> {
    most: usize,
    items: Vec<Drafted<'a>>,
    ghost short: { vec_len items ≤ most },
}

impl<'a> Drafts<'a> {
    ghost use Rattle.text.specs.Drafts.{Added, AllBecome, IsUnchanged};

    pub(crate) fn new(alloc: Global, most: usize) -> Drafts<'a>
        ensures most { result.most ≡ most }
        ensures empty { vec_len result.items ≡ 0 }
    {
        Drafts {
            most,
            items: Vec::new(alloc),
        }
    }

    pub(crate) fn len(&self) -> usize
        ensures { result ≡ vec_len self.now.items }
    {
        self.items.len()
    }

    // Adds the instruction of a line, if the line's words after its labels are any.
    pub(crate) fn add(&mut self, line: usize, words: &[&'a str]) -> Result<(), Problem<'a>>
        ensures ok { OnOk result (Added line (texts words.now) self.old self.new) }
        ensures err { OnErr result (IsUnchanged self.old self.new) }
    {
        let Some((first, rest)) = words.split_first() else {
            return Ok(());
        };
        let place = self.items.len();
        if place >= self.most {
            return Err(Problem::TooManyInstructions(self.most));
        }
        let draft = draft(place, first, rest)?;
        self.items.push(Drafted { draft, line })?;
        Ok(())
    }

    // The words of the program, with each label's place in the instructions that go to it.
    pub(crate) fn words(
        &self,
        alloc: Global,
        labels: &Labels<'a>,
    ) -> Result<Vec<u64>, TextError<'a>>
        ensures len { IfOk result (λ v. vec_len v ≡ vec_len self.now.items) }
        ensures words { IfOk result (λ v. AllBecome labels.now self.now.items.items v.items) }
    {
        let mut words = Vec::new(alloc);
        // a `for`: `try_collect` would have to tell of memory too, and that in a line
        for drafted in &self.items {
            let line = drafted.line;
            drafted
                .put(labels, &mut words)
                .map_err(|problem| TextError { line, problem })?;
        }
        Ok(words)
    }
}
