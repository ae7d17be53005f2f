// The table of the kinds: which numbers each field may hold.
ghost use Rattle.std.specs.Prelude.{◌≡◌, true};
ghost use Rattle.isa.specs.Table.{leaves_out, row_of, row_from, outside, misses, operand};
ghost use Rattle.isa.specs.Rules.{fits, broken};
ghost use Rattle.isa.specs.Refusals.{refusal_number};

use crate::fields::{Fields, MOST_HOME};
use crate::kind::Kind;
use crate::refusal::WordRefusal;

// The numbers that a field may hold, from `low` to `high`.
#[derive(Clone, Copy)]
pub(crate) struct Span {
    pub low: u16,
    pub high: u16,
}

const WIDTHS: Option<Span> = Some(Span { low: 0, high: 2 });

const WRITTEN: Option<Span> = Some(Span { low: 1, high: 31 });

const SOURCE: Option<Span> = Some(Span { low: 0, high: 31 });

const SHADOW: Option<Span> = Some(Span { low: 32, high: 63 });

const ANY: Option<Span> = Some(Span { low: 0, high: 63 });

const RESULT: Option<Span> = Some(Span { low: 1, high: 63 });

const NUMBER: Option<Span> = Some(Span {
    low: 0,
    high: 65535,
});

impl Span {
    pub(crate) fn leaves_out(self, x: u64) -> bool
        ensures { result ≡ leaves_out self x }
    {
        x < u64::from(self.low) || x > u64::from(self.high)
    }
}

// The numbers of a field that its kind does not use.
const ZERO: Span = Span { low: 0, high: 0 };

// x is outside the span of its field; a field that the kind does not use holds 0. (By one test for both: with a test of its
// own for a field without a span, unpacking takes a tenth more instructions.)
fn outside(field: Option<Span>, x: u64) -> bool
    ensures { result ≡ outside field x }
{
    field.unwrap_or(ZERO).leaves_out(x)
}

// The kind uses the field, and x is outside its span.
fn misses(field: Option<Span>, x: u64) -> bool
    ensures { result ≡ misses field x }
{
    field.is_some_and(|span| span.leaves_out(x))
}

// One row of the table: the span of each field, or nothing where the kind does not use the field.
#[derive(Clone, Copy)]
pub(crate) struct Row {
    pub width: Option<Span>,
    pub d: Option<Span>,
    pub a: Option<Span>,
    pub b: Option<Span>,
    pub imm: Option<Span>,
}

impl Row {
    pub(crate) fn new(
        width: Option<Span>,
        d: Option<Span>,
        a: Option<Span>,
        b: Option<Span>,
        imm: Option<Span>,
    ) -> Row
        ensures { result ≡ row_from width d a b imm }
    {
        Row {
            width,
            d,
            a,
            b,
            imm,
        }
    }

    // Every field is in its span and home is a place: the one test that nearly every word passes.
    pub(crate) fn fits(self, f: &Fields) -> bool
        ensures { result ≡ fits self f.now }
    {
        !outside(self.width, f.width)
            && !outside(self.d, f.d)
            && !outside(self.a, f.a)
            && !outside(self.b, f.b)
            && !outside(self.imm, f.imm)
            && f.home <= MOST_HOME
    }

    // The first rule that is broken by fields which do not fit, or whose word has a bit where zeros belong.
    pub(crate) fn refusal(self, f: &Fields) -> WordRefusal
        ensures { refusal_number result ≡ broken true self f.now }
    {
        if outside(self.width, f.width) {
            return WordRefusal::Width;
        }
        if misses(self.d, f.d) || misses(self.a, f.a) || misses(self.b, f.b) {
            return WordRefusal::Register;
        }
        WordRefusal::Rest
    }
}

// What an operation may read: shadows only where it writes one.
fn operand(shadow: bool) -> Option<Span>
    ensures { result ≡ operand shadow }
{
    if shadow { ANY } else { SOURCE }
}

impl Kind {
    // The kind's row, where `shadow` says that d is above 31.
    pub(crate) fn row(self, shadow: bool) -> Row
        ensures { result ≡ row_of self shadow }
    {
        let from = operand(shadow);
        match self {
            // width, d, a, b, imm
            Kind::Halt => Row::new(None, None, None, None, None),
            Kind::Const => Row::new(None, WRITTEN, None, None, NUMBER),
            Kind::Add
            | Kind::Sub
            | Kind::And
            | Kind::Or
            | Kind::Xor
            | Kind::Shl
            | Kind::Shr
            | Kind::Below => Row::new(None, RESULT, from, from, None),
            Kind::Load => Row::new(WIDTHS, WRITTEN, SOURCE, None, NUMBER),
            Kind::Store => Row::new(WIDTHS, None, SOURCE, SOURCE, NUMBER),
            Kind::Beq | Kind::Bne => Row::new(None, None, SOURCE, SOURCE, NUMBER),
            Kind::Jump | Kind::Back => Row::new(None, None, None, None, NUMBER),
            Kind::Early => Row::new(WIDTHS, SHADOW, ANY, None, NUMBER),
            Kind::Check => Row::new(None, WRITTEN, SHADOW, None, NUMBER),
            Kind::Take => Row::new(None, WRITTEN, SHADOW, None, None),
            Kind::Reload => Row::new(WIDTHS, WRITTEN, SOURCE, SHADOW, NUMBER),
        }
    }
}
