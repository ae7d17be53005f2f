// Numbers in a slice of bytes, the low byte first.
// An arm for each width, for speed: by a copy of w bytes, which was tried, a store takes 4.8 ns in place of 2.0, and a
// read 7.4 in place of 2.0.
ghost use Rattle.std.specs.Prelude.{◌≡◌, slice_index};
ghost use Rattle.memory.specs.Bytes.{Room, number_at, stored_in};

pub(crate) fn number_at(bytes: &[u8], at: usize, w: u32) -> u32
    requires { Room bytes.now at w }
    ensures { result ≡ number_at (λ a. slice_index bytes.now a) at w }
{
    let bytes = &bytes[at..];
    match w {
        1 => u32::from(bytes[0]),
        2 => u32::from(u16::from_le_bytes([bytes[0], bytes[1]])),
        _ => u32::from_le_bytes([bytes[0], bytes[1], bytes[2], bytes[3]]),
    }
}

pub(crate) fn store_at(bytes: &mut [u8], at: usize, w: u32, v: u32)
    requires { Room bytes.old at w }
    ensures { bytes.new ≡ stored_in bytes.old at w v }
{
    let low = v.to_le_bytes();
    match w {
        1 => bytes[at] = low[0],
        2 => bytes[at..at + 2].copy_from_slice(&low[..2]),
        _ => bytes[at..at + 4].copy_from_slice(&low),
    }
}
