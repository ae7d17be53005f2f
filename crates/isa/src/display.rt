// Instructions as text, in the form that the parser reads back.
ghost use Rattle.std.specs.Prelude.{◌≡◌, Some};
ghost use Rattle.isa.specs.Mnemonics.{mnemonic_of};
ghost use Rattle.isa.specs.Texts.{address_text, home_text, instruction_text, operands_text, register_text};
ghost use Rattle.isa.specs.Naming.{NamesKind, unknown_mnemonic_text};

use crate::instruction::Instruction;
use crate::kind::Kind;
use std::error::Error;
use std::fmt;
use std::str::FromStr;

impl Kind {
    // The name by which text calls the kind.
    pub fn mnemonic(self) -> &'static str
        ensures { result.now ≡ mnemonic_of self }
    {
        match self {
            Kind::Halt => "halt",
            Kind::Const => "const",
            Kind::Add => "add",
            Kind::Sub => "sub",
            Kind::And => "and",
            Kind::Or => "or",
            Kind::Xor => "xor",
            Kind::Shl => "shl",
            Kind::Shr => "shr",
            Kind::Below => "below",
            Kind::Load => "load",
            Kind::Store => "store",
            Kind::Beq => "beq",
            Kind::Bne => "bne",
            Kind::Jump => "jump",
            Kind::Early => "early",
            Kind::Check => "check",
            Kind::Take => "take",
            Kind::Reload => "reload",
            Kind::Back => "back",
        }
    }
}

impl fmt::Display for Kind {
    ghost output = { λ k. Some (mnemonic_of k) };

    fn fmt<W: fmt::Write>(&self, f: &mut fmt::Formatter<W>) -> fmt::Result {
        f.write_str(self.mnemonic())
    }
}

// A text by which no kind is called.
#[derive(Clone, Copy, PartialEq, Eq, Debug)]
pub struct UnknownMnemonic;

// By hand, as every Display here: a derived one would not promise the text.
impl fmt::Display for UnknownMnemonic {
    ghost output = { λ _. Some unknown_mnemonic_text };

    fn fmt<W: fmt::Write>(&self, f: &mut fmt::Formatter<W>) -> fmt::Result {
        f.write_str("no kind has this mnemonic")
    }
}

impl Error for UnknownMnemonic {}

impl FromStr for Kind {
    type Err = UnknownMnemonic;

    ghost from_str_gives = { NamesKind };

    fn from_str(text: &str) -> Result<Self, UnknownMnemonic> {
        Kind::ALL
            .iter()
            .copied()
            .find(|kind| kind.mnemonic() == text)
            .ok_or(UnknownMnemonic)
    }
}

// An access address: a register and a signed 16-bit offset.
#[derive(Clone, Copy)]
struct Address {
    base: u8,
    offset: u16,
}

impl fmt::Display for Address {
    ghost output = { λ x. Some (address_text x.base x.offset) };

    fn fmt<W: fmt::Write>(&self, f: &mut fmt::Formatter<W>) -> fmt::Result {
        let base = self.base;
        let offset = self.offset;
        if offset == 0 {
            write!(f, "[r{base}]")
        } else if offset < 0x8000 {
            write!(f, "[r{base}+{offset}]")
        } else {
            let below = 0x1_0000 - u32::from(offset);
            write!(f, "[r{base}-{below}]")
        }
    }
}

// A register with the blank before it.
#[derive(Clone, Copy)]
struct Register(u8);

impl fmt::Display for Register {
    ghost output = { λ x. Some (register_text x.0) };

    fn fmt<W: fmt::Write>(&self, f: &mut fmt::Formatter<W>) -> fmt::Result {
        write!(f, " r{}", self.0)
    }
}

// The home where it is not 0, with the blank before it.
#[derive(Clone, Copy)]
struct Home(u16);

impl fmt::Display for Home {
    ghost output = { λ x. Some (home_text x.0) };

    fn fmt<W: fmt::Write>(&self, f: &mut fmt::Formatter<W>) -> fmt::Result {
        if self.0 == 0 {
            return Ok(());
        }
        write!(f, " @{}", self.0)
    }
}

// The operands, each with the blank before it.
#[derive(Clone, Copy)]
struct Operands(Instruction);

impl fmt::Display for Operands {
    ghost output = { λ x. Some (operands_text x.0.kind x.0) };

    fn fmt<W: fmt::Write>(&self, f: &mut fmt::Formatter<W>) -> fmt::Result {
        let i = self.0;
        let width = i.width.bytes();
        let d = Register(i.d);
        let a = Register(i.a);
        let b = Register(i.b);
        let imm = i.imm;
        let address = Address {
            base: i.a,
            offset: imm,
        };
        match i.kind {
            Kind::Halt => Ok(()),
            Kind::Const => write!(f, "{d} {imm}"),
            Kind::Load | Kind::Early => write!(f, " {width}{d} {address}"),
            Kind::Store => write!(f, " {width} {address}{b}"),
            Kind::Beq | Kind::Bne => write!(f, "{a}{b} {imm}"),
            Kind::Jump | Kind::Back => write!(f, " {imm}"),
            Kind::Check => write!(f, "{d}{a} {imm}"),
            Kind::Take => write!(f, "{d}{a}"),
            Kind::Reload => write!(f, " {width}{d} {address}{b}"),
            _ => write!(f, "{d}{a}{b}"),
        }
    }
}

impl fmt::Display for Instruction {
    ghost output = { λ i. Some (instruction_text i) };

    fn fmt<W: fmt::Write>(&self, f: &mut fmt::Formatter<W>) -> fmt::Result {
        write!(f, "{}{}{}", self.kind, Operands(*self), Home(self.home))
    }
}
