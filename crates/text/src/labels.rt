// The labels of a program, with where each stands.
ghost use Rattle.std.specs.Prelude.{◌≡◌, ◌≤◌, true, length, take_while, IfOk, OnOk, OnErr};
ghost use Rattle.std.specs.BTreeMap.{IsEmpty, IsUnchanged};
ghost use Rattle.std.specs.Option.{option_copied, option_map};
ghost use Rattle.text.specs.Marks.{before_colon, is_label};
ghost use Rattle.text.specs.Names.{is_name};
ghost use Rattle.text.specs.Texts.{texts};

use crate::name::is_name;
use crate::problem::Problem;
use std::alloc::Global;
use std::collections::BTreeMap;

// A program with more labels is refused.
const MOST_LABELS: usize = 16384;

// Where a label stands: the place of the instruction after it, and the line's number for messages.
#[derive(Clone, Copy, PartialEq, Eq, Debug)]
pub(crate) struct Mark {
    pub place: usize,
    pub line: usize,
}

// What stands before a word's last colon, where it ends with one.
#[tactic(auto, using(crate::proofs::Edges::strips_colon))]
pub(crate) fn before_colon(word: &str) -> Option<&str>
    ensures { option_copied result ≡ before_colon word.now }
{
    word.strip_suffix(':')
}

// How many labels are in front of a line. (A chain that ends a function is proved with no answer.)
fn count_labels(words: &[&str]) -> usize
    ensures count { result ≡ length (take_while (λ word. is_label word.now) words.now) }
    ensures bound { result ≤ length words.now }
{
    words
        .iter()
        .take_while(|word| before_colon(word).is_some())
        .count()
}

#[derive(Drop)]
pub(crate) struct Labels<'a> {
    marks: BTreeMap<&'a str, Mark>,
}

impl<'a> Labels<'a> {
    ghost use Rattle.text.specs.Marks.{Marked, OnlyAdds, after_labels, at_label};

    pub(crate) fn new(alloc: Global) -> Labels<'a>
        ensures { IsEmpty result.marks }
    {
        Labels {
            marks: BTreeMap::new(alloc),
        }
    }

    // The place of the instruction after a label.
    pub(crate) fn place_of(&self, label: &str) -> Option<usize>
        ensures { result ≡ option_map (λ mark. mark.place) (at_label self.now label.now) }
    {
        self.marks.get(label).map(|mark| mark.place)
    }

    // Marks a label that has no mark yet.
    fn mark(&mut self, label: &'a str, mark: Mark) -> Result<(), Problem<'a>>
        ensures named { OnOk result (is_name label.now ≡ true) }
        ensures marked { OnOk result (Marked self.old self.new label.entry mark) }
        ensures err { OnErr result (IsUnchanged self.old.marks self.new.marks) }
    {
        if !is_name(label) {
            return Err(Problem::NotLabel(label));
        }
        // looked up twice: an entry would lend the table while its length is asked
        if let Some(marked) = self.marks.get(label) {
            let first = marked.line;
            return Err(Problem::DefinedTwice { label, first });
        }
        if self.marks.len() >= MOST_LABELS {
            return Err(Problem::TooManyLabels(MOST_LABELS));
        }
        self.marks.insert(label, mark)?;
        Ok(())
    }

    // Marks the labels in front of a line, and gives the words after them.
    #[tactic(auto, using(crate::proofs::Fronts::texts_drop))]
    pub(crate) fn mark_all<'w>(
        &mut self,
        words: &'w [&'a str],
        mark: Mark,
    ) -> Result<&'w [&'a str], Problem<'a>>
        ensures rest { IfOk result (λ rest. texts rest.now ≡ after_labels (texts words.now)) }
        ensures marks { OnlyAdds self.old self.new mark }
    {
        let (labels, rest) = words.split_at(count_labels(words));
        for label in labels.iter().filter_map(|word| before_colon(word)) {
            self.mark(label, mark)?;
        }
        Ok(rest)
    }
}
