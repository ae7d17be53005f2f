// An instruction: every value keeps the ranges of its kind, so each has a word.
ghost use Rattle.std.specs.Prelude.{◌≡◌, ◌<◌};
ghost use Rattle.isa.specs.Rules.{legal};

use crate::kind::{Kind, Width};

// `imm` is the raw 16 bits, be it a number, an offset or a position; `home` is the source place that the instruction came from.
#[derive(Clone, Copy, PartialEq, Eq, Debug)]
pub struct Instruction {
    pub kind: Kind,
    pub width: Width,
    pub d: u8,
    pub a: u8,
    pub b: u8,
    pub home: u16,
    pub imm: u16,
    ghost lawful: { legal kind width d a b imm ≡ 0 },
    ghost placed: { home < 1024 },
    ghost small: { (d < 64) × (a < 64) × (b < 64) },
}
