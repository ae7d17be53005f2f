// An input as text, up to a stated length.
ghost use Rattle.std.specs.Prelude.{◌≡◌, ◌<◌, ◌≤◌, ◌↔◌, length, count_by, ◌==◌, IfOk, IsOk, IfErr, IfSome, vec_len, IsUtf8};
ghost use Rattle.nadvoszip.specs.Lines.{first_bad_line};

use crate::failure::Failure;
use std::alloc::Global;
use std::io::Read;
use std::str;

// 16 MiB.
const MOST_BYTES: usize = 16_777_216;

fn newlines(bytes: &[u8]) -> usize
    ensures value { result ≡ count_by (λ c. c == 10) bytes.now }
    ensures bound { result ≤ length bytes.now }
{
    bytes.iter().filter(|byte| **byte == b'\n').count()
}

// All of the input.
pub fn read<R: Read + Drop>(alloc: Global, input: R) -> Result<Vec<u8>, Failure>
    ensures most { IfOk result (λ bytes. vec_len bytes ≤ MOST_BYTES) }

    // where it is known what the input holds
    ensures all { IfOk result (λ bytes. IfSome (R.remaining input) (λ held. bytes.items ≡ held)) }
    ensures too_long { result ≡ Err Failure.TooLong →
        IfSome (R.remaining input) (λ held. MOST_BYTES < length held) }
{
    let mut bytes = Vec::new(alloc);
    let limit = MOST_BYTES as u64 + 1;
    input
        .take(limit)
        .read_to_end(&mut bytes)
        // named, since the derived conversion does not promise which failure it gives
        .map_err(Failure::Io)?;
    if bytes.len() > MOST_BYTES {
        return Err(Failure::TooLong);
    }
    Ok(bytes)
}

// The bytes as text, or the line in which they stop being text.
pub fn as_text(bytes: &[u8]) -> Result<&str, Failure>
    ensures text { IsOk result ↔ IsUtf8 bytes.now }
    ensures ok { IfOk result (λ text. text.now ≡ bytes.now) }
    ensures err { IfErr result (λ e. e ≡ Failure.NotText (first_bad_line bytes.now)) }
{
    str::from_utf8(bytes).map_err(|error| Failure::NotText {
        line: newlines(&bytes[..error.valid_up_to()]) + 1,
    })
}
