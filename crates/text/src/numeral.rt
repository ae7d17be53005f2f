// Numbers as text writes them: decimal digits, or 0x and hex digits, of any length.
ghost use Rattle.std.specs.Prelude.{◌≡◌, ◌≤◌};
ghost use Rattle.std.specs.Option.{option_copied};
ghost use Rattle.text.specs.Numerals.{begins_with_digit, capped, hex_digits, is_numeral, misread_of, number_in, numeral_in, told};

use crate::problem::Problem;

// Why a text gives no number.
#[derive(Clone, Copy)]
pub(crate) enum Misread {
    NoNumber,
    TooLarge,
}

impl Misread {
    // Of a text that gives no number of 64 bits.
    fn of(text: &str, radix: u32) -> Misread
        requires lower_bound { 2 ≤ radix }
        requires upper_bound { radix ≤ 36 }
        ensures { result ≡ misread_of radix text.now }
    {
        if is_numeral(text, radix) {
            Misread::TooLarge
        } else {
            Misread::NoNumber
        }
    }

    // The problem of a word that was so misread: `none` where it is no number, and else `large`.
    pub(crate) fn told<'a>(self, none: Problem<'a>, large: Problem<'a>) -> Problem<'a>
        ensures { result ≡ told self none.entry large.entry }
    {
        match self {
            Misread::NoNumber => none,
            Misread::TooLarge => large,
        }
    }
}

// Whether a text is one or more digits of the base.
fn is_numeral(text: &str, radix: u32) -> bool
    requires lower_bound { 2 ≤ radix }
    requires upper_bound { radix ≤ 36 }
    ensures { result ≡ is_numeral radix text.now }
{
    !text.is_empty() && text.bytes().all(|byte| char::from(byte).is_digit(radix))
}

fn begins_with_digit(text: &str, radix: u32) -> bool
    requires lower_bound { 2 ≤ radix }
    requires upper_bound { radix ≤ 36 }
    ensures { result ≡ begins_with_digit radix text.now }
{
    text.as_bytes()
        .first()
        .is_some_and(|byte| char::from(*byte).is_digit(radix))
}

// The number that digits write. They may be many, so they are walked once, and again only where they give no number.
pub(crate) fn numeral(digits: &str, radix: u32) -> Result<u64, Misread>
    requires lower_bound { 2 ≤ radix }
    requires upper_bound { radix ≤ 36 }
    ensures { result ≡ capped (numeral_in radix digits.now) }
{
    // `from_str_radix` would take a plus in front
    if !begins_with_digit(digits, radix) {
        return Err(Misread::NoNumber);
    }
    u64::from_str_radix(digits, radix).map_err(|_| Misread::of(digits, radix))
}

// The digits of a word that begins 0x.
pub(crate) fn hex_digits(word: &str) -> Option<&str>
    ensures { option_copied result ≡ hex_digits word.now }
{
    word.strip_prefix("0x")
}

// The number that a word writes, decimal or with 0x in front.
pub(crate) fn number(word: &str) -> Result<u64, Misread>
    ensures { result ≡ capped (number_in word.now) }
{
    match hex_digits(word) {
        Some(digits) => numeral(digits, 16),
        None => numeral(word, 10),
    }
}
