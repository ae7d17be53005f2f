// The kinds of an instruction and the widths of an access, with their numbers in a word.
ghost use Rattle.std.specs.Prelude.{◌≡◌};
ghost use Rattle.isa.specs.Kinds.{kind_number, kind_read, width_number, width_read, width_bytes};

use crate::refusal::WordRefusal;

// In the order of their numbers, from 0 up.
#[derive(Clone, Copy, PartialEq, Eq, Debug)]
pub enum Kind {
    Halt,
    Const,
    Add,
    Sub,
    And,
    Or,
    Xor,
    Shl,
    Shr,
    Below,
    Load,
    Store,
    Beq,
    Bne,
    Jump,
    Early,
    Check,
    Take,
    Reload,
    Back,
}

impl Kind {
    // Every kind, at the place of its number.
    pub const ALL: [Kind; 20] = [
        Kind::Halt,
        Kind::Const,
        Kind::Add,
        Kind::Sub,
        Kind::And,
        Kind::Or,
        Kind::Xor,
        Kind::Shl,
        Kind::Shr,
        Kind::Below,
        Kind::Load,
        Kind::Store,
        Kind::Beq,
        Kind::Bne,
        Kind::Jump,
        Kind::Early,
        Kind::Check,
        Kind::Take,
        Kind::Reload,
        Kind::Back,
    ];

    pub fn number(self) -> u64
        ensures { result ≡ kind_number self }
    {
        self as u64
    }
}

impl TryFrom<u64> for Kind {
    type Error = WordRefusal;

    ghost try_from_gives = { λ n r. r ≡ kind_read n };

    #[tactic(auto, using(crate::proofs::Numbers::copied_item))]
    fn try_from(number: u64) -> Result<Self, WordRefusal> {
        Kind::ALL
            .get(number as usize)
            .copied()
            .ok_or(WordRefusal::Kind)
    }
}

// How many bytes an access touches.
#[derive(Clone, Copy, PartialEq, Eq, Debug)]
pub enum Width {
    One = 1,
    Two = 2,
    Four = 4,
}

impl Width {
    // Every width, at the place of its number.
    const ALL: [Width; 3] = [Width::One, Width::Two, Width::Four];

    // 0, 1 and 2 for 1, 2 and 4 bytes.
    pub fn number(self) -> u64
        ensures { result ≡ width_number self }
    {
        u64::from(self.bytes() / 2)
    }

    pub fn bytes(self) -> u32
        ensures { result ≡ width_bytes self }
    {
        self as u32
    }
}

impl TryFrom<u64> for Width {
    type Error = WordRefusal;

    ghost try_from_gives = { λ n r. r ≡ width_read n };

    fn try_from(number: u64) -> Result<Self, WordRefusal> {
        Width::ALL
            .get(number as usize)
            .copied()
            .ok_or(WordRefusal::Width)
    }
}
