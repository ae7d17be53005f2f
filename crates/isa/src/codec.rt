// Between an instruction, its fields and its word.
ghost use Rattle.std.specs.Prelude.{◌≡◌, true, nat_lt};
ghost use Rattle.isa.specs.Kinds.{kind_number, width_number};
ghost use Rattle.isa.specs.Rules.{fits};
ghost use Rattle.isa.specs.Table.{row_of};
ghost use Rattle.isa.specs.Theorems.{OneToOne, ComposesExactly};
ghost use Rattle.isa.specs.Words.{fields_of, packed, fields_in, composed, unpacked, answered, read_as};

use crate::fields::Fields;
use crate::instruction::Instruction;
use crate::kind::{Kind, Width};
use crate::refusal::WordRefusal;

impl From<Instruction> for Fields {
    ghost from_gives = { λ i f. f ≡ fields_of i };

    fn from(i: Instruction) -> Self {
        Fields {
            kind: i.kind.number(),
            width: i.width.number(),
            d: u64::from(i.d),
            a: u64::from(i.a),
            b: u64::from(i.b),
            home: u64::from(i.home),
            imm: u64::from(i.imm),
        }
    }
}

// The instruction of fields that fit the row of their kind. Casts, which are proved to lose nothing: `try_from` would add
// refusals that never come.
fn build(kind: Kind, width: Width, f: &Fields) -> Instruction
    requires kind { kind_number kind ≡ f.now.kind }
    requires width { width_number width ≡ f.now.width }
    requires fits { fits (row_of kind (nat_lt 31 f.now.d)) f.now ≡ true }
    ensures { fields_of result ≡ f.now }
{
    Instruction {
        kind,
        width,
        d: f.d as u8,
        a: f.a as u8,
        b: f.b as u8,
        home: f.home as u16,
        imm: f.imm as u16,
    }
}

// The instruction of these fields, or the first rule that they break; `stray` says that a zero bit is set beside them.
fn read(f: &Fields, stray: bool) -> Result<Instruction, WordRefusal>
    ensures { answered result ≡ read_as stray f.now }
{
    let kind = Kind::try_from(f.kind)?;
    let row = kind.row(f.d > 31);
    let width = Width::try_from(f.width)?;
    if stray || !row.fits(f) {
        return Err(row.refusal(f));
    }
    Ok(build(kind, width, f))
}

// The instruction of these fields, or the first rule that they break. Compose, pack and unpack have the
// names of these calls in the rules: a conversion would not say which number is a word, or read fields of any numbers.
pub fn compose(f: &Fields) -> Result<Instruction, WordRefusal>
    ensures { answered result ≡ composed f.now }
{
    read(f, false)
}

// The word of an instruction. Each instruction has one word, and each accepted word one instruction; composing accepts
// the fields of every instruction and no others.
pub fn pack(i: &Instruction) -> u64
    ensures word { result ≡ packed i.now }
    ensures laws { OneToOne × ComposesExactly }
{
    join(i)
}

// The fields at their places in the word.
fn join(i: &Instruction) -> u64
    ensures { result ≡ packed i.now }
{
    (i.kind.number() << 59)
        + (i.width.number() << 57)
        + (u64::from(i.d) << 51)
        + (u64::from(i.a) << 45)
        + (u64::from(i.b) << 39)
        + (u64::from(i.home) << 29)
        + u64::from(i.imm)
}

// The fields of a word, without its thirteen zero bits.
fn split(word: u64) -> Fields
    ensures { result ≡ fields_in word }
{
    Fields {
        kind: word >> 59,
        width: (word >> 57) % 4,
        d: (word >> 51) % 64,
        a: (word >> 45) % 64,
        b: (word >> 39) % 64,
        home: (word >> 29) % 1024,
        imm: word % 65536,
    }
}

// The instruction of a word, or the first rule that the word breaks.
pub fn unpack(word: u64) -> Result<Instruction, WordRefusal>
    ensures { answered result ≡ unpacked word }
{
    read(&split(word), (word >> 16) % 8192 != 0)
}
