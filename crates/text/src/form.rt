// The forms of the instructions: which operands the words after a mnemonic are, in their order.
ghost use Rattle.std.specs.Prelude.{◌≡◌};
ghost use Rattle.std.specs.Result.{result_ok};
ghost use Rattle.text.specs.Forms.{form_of, filled};

use crate::operand::{address_in, number_up_to, register_in, target_in, width_in};
use crate::problem::Problem;
use isa::fields::{Fields, MOST_IMM};
use isa::kind::Kind;

// What a word of an instruction gives. Not a function that reads it: none may be handed out by a
// pointer, which would have no contract of its own.
#[derive(Clone, Copy)]
pub enum Slot {
    D,
    A,
    B,
    Width,
    // a base register and an offset
    Address,
    Number,
    // a place, as a number or as a label
    Target,
}

impl Slot {
    // The fields with what the word gives.
    pub fn fill<'a>(self, mut fields: Fields, word: &'a str) -> Result<Fields, Problem<'a>>
        ensures { result_ok result ≡ filled self fields word.now }
    {
        match self {
            Slot::D => fields.d = register_in(word)?,
            Slot::A => fields.a = register_in(word)?,
            Slot::B => fields.b = register_in(word)?,
            Slot::Width => fields.width = width_in(word)?.number(),
            Slot::Address => {
                let address = address_in(word)?;
                fields.a = address.base;
                fields.imm = address.offset;
            }
            Slot::Number => fields.imm = number_up_to(word, MOST_IMM)?,
            Slot::Target => fields.imm = target_in(word)?,
        }
        Ok(fields)
    }
}

// The operands of a kind, as its text has them after the mnemonic.
pub fn form(kind: Kind) -> &'static [Slot]
    ensures { result.now ≡ form_of kind }
{
    match kind {
        Kind::Halt => &[],
        Kind::Const => &[Slot::D, Slot::Number],
        Kind::Load | Kind::Early => &[Slot::Width, Slot::D, Slot::Address],
        Kind::Store => &[Slot::Width, Slot::Address, Slot::B],
        Kind::Beq | Kind::Bne => &[Slot::A, Slot::B, Slot::Target],
        Kind::Jump => &[Slot::Target],
        Kind::Back => &[Slot::Number],
        Kind::Check => &[Slot::D, Slot::A, Slot::Number],
        Kind::Take => &[Slot::D, Slot::A],
        Kind::Reload => &[Slot::Width, Slot::D, Slot::Address, Slot::B],
        _ => &[Slot::D, Slot::A, Slot::B],
    }
}
