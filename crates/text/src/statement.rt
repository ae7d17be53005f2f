// One instruction from its words: the mnemonic, the operands and the home.
ghost use Rattle.std.specs.Prelude.{◌≡◌};
ghost use Rattle.std.specs.Option.{option_copied, option_map};
ghost use Rattle.std.specs.Result.{result_ok};
ghost use Rattle.text.specs.Forms.{fields_read, form_of, start_of, word_for};
ghost use Rattle.text.specs.Statements.{drawn, goes_to_label, has_target, home_split, instruction_of, label_in, view};
ghost use Rattle.text.specs.Texts.{texts};

use crate::form::form;
use crate::name::is_name;
use crate::operand::home_in;
use crate::problem::Problem;
use isa::codec::{compose, pack};
use isa::fields::Fields;
use isa::kind::Kind;

// What a line gives for its place.
#[derive(Clone, Copy, PartialEq, Eq, Debug)]
pub enum Draft<'a> {
    Word(u64),
    // an instruction whose target is a label
    Branch { fields: Fields, label: &'a str },
}

// The fields that operands give, in the order of the kind's form.
#[tactic(auto, using(crate::proofs::Readings::fields_read_other))]
fn fields_read<'a>(kind: Kind, home: u64, operands: &[&'a str]) -> Result<Fields, Problem<'a>>
    ensures { result_ok result ≡
        fields_read (form_of kind) (start_of kind home) (texts operands.now) }
{
    let slots = form(kind);
    if operands.len() != slots.len() {
        return Err(Problem::OperandCount {
            kind,
            wanted: slots.len(),
            given: operands.len(),
        });
    }
    let mut fields = Fields {
        kind: kind.number(),
        home,
        ..Fields::default()
    };
    // a `for`: with `try_fold` no short proof was found
    for (slot, word) in slots.iter().zip(operands) {
        fields = slot.fill(fields, word)?;
    }
    Ok(fields)
}

// The home that the last word gives, 0 where it gives none, and the words before it.
fn split_home<'w, 'a>(words: &'w [&'a str]) -> Result<(u64, &'w [&'a str]), Problem<'a>>
    ensures { option_map (λ p. (p.0, texts p.1.now)) (result_ok result) ≡
        home_split (texts words.now) }
{
    let Some((last, front)) = words.split_last() else {
        return Ok((0, words));
    };
    match home_in(last) {
        Some(home) => Ok((home?, front)),
        None => Ok((0, words)),
    }
}

fn has_target(kind: Kind) -> bool
    ensures { result ≡ has_target kind }
{
    matches!(kind, Kind::Beq | Kind::Bne | Kind::Jump)
}

// Whether the last word of an instruction is a label.
fn goes_to_label(kind: Kind, last: &str) -> bool
    ensures { result ≡ goes_to_label kind last.now }
{
    has_target(kind) && is_name(last)
}

// The label that an instruction goes to.
fn label_in<'a>(kind: Kind, operands: &[&'a str]) -> Option<&'a str>
    ensures { option_copied result ≡ label_in kind (texts operands.now) }
{
    operands
        .last()
        .copied()
        .filter(|last| goes_to_label(kind, last))
}

// The word of these fields.
#[tactic(auto, unfolding(crate::specs::Forms::word_for))]
pub fn word_of<'a>(fields: Fields) -> Result<u64, Problem<'a>>
    ensures { result_ok result ≡ word_for fields }
{
    Ok(pack(&compose(&fields)?))
}

// The draft of a kind with the words after its mnemonic.
#[tactic(auto, unfolding(crate::specs::Statements::drawn))]
fn draft_of<'a>(kind: Kind, words: &[&'a str]) -> Result<Draft<'a>, Problem<'a>>
    ensures { option_map view (result_ok result) ≡ drawn kind (texts words.now) }
{
    let (home, operands) = split_home(words)?;
    let fields = fields_read(kind, home, operands)?;
    match label_in(kind, operands) {
        Some(label) => Ok(Draft::Branch { fields, label }),
        None => Ok(Draft::Word(word_of(fields)?)),
    }
}

#[tactic(auto, using(crate::proofs::Naming::kind_named_from))]
pub fn instruction<'a>(mnemonic: &'a str, words: &[&'a str]) -> Result<Draft<'a>, Problem<'a>>
    ensures { option_map view (result_ok result) ≡ instruction_of mnemonic.now (texts words.now) }
{
    let kind = mnemonic
        .parse::<Kind>()
        .map_err(|_| Problem::UnknownMnemonic(mnemonic))?;
    draft_of(kind, words)
}
