// Which accesses there are: a direction, an address and a width in bytes.
ghost use Rattle.std.specs.Prelude.{◌≡◌};
ghost use Rattle.memory.specs.Access.{aligned, granule, is_write};

#[derive(Clone, Copy, PartialEq, Eq, Debug)]
pub enum Direction {
    Read,
    Write,
}

impl Direction {
    pub fn is_write(self) -> bool
        ensures { result ≡ is_write self }
    {
        self == Direction::Write
    }
}

// The number of the granule, four bytes that share their marks, in which an address lies.
pub fn granule_of(x: u32) -> u32
    ensures { result ≡ granule x }
{
    x / 4
}

// Whether the width is 1, 2 or 4 and the address a multiple of it. An arm for each width, since a division by a width
// that is not known would cost more than the whole access.
pub fn is_aligned(x: u32, w: u32) -> bool
    ensures { result ≡ aligned x w }
{
    match w {
        1 => true,
        2 => x % 2 == 0,
        4 => x % 4 == 0,
        _ => false,
    }
}
