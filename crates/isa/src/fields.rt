// The seven fields of a word as plain numbers of any size, of which not all make an instruction. Kind and width are
// numbers too, no enums: fields with a number that names none are refused, and so there must be such fields.
#[derive(Clone, Copy, PartialEq, Eq, Debug, Default)]
pub struct Fields {
    pub kind: u64,
    pub width: u64,
    pub d: u64,
    pub a: u64,
    pub b: u64,
    pub home: u64,
    pub imm: u64,
}

// The largest numbers that an instruction may have in these fields.
pub const MOST_REGISTER: u64 = 63;

pub const MOST_HOME: u64 = 1023;

pub const MOST_IMM: u64 = 65535;
