// The operands of an instruction: registers, numbers, widths, addresses and homes.
ghost use Rattle.std.specs.Prelude.{◌≡◌, ◌≤◌, IfOk};
ghost use Rattle.std.specs.Option.{ok_or, option_copied, option_map};
ghost use Rattle.std.specs.Result.{result_ok};
ghost use Rattle.std.specs.Str.{IsCharBoundary};
ghost use Rattle.text.specs.declared.numeral.Misread.TheVariants.{TooLarge};
ghost use Rattle.text.specs.Operands.{address_in, at_most, bracketed_in, home_in, negated, number_up_to, offset_in, plain_front, register_in, target_in, width_in, width_of};

use crate::name::is_name;
use crate::numeral::{Misread, number, numeral};
use crate::problem::Problem;
use isa::fields::{MOST_HOME, MOST_IMM, MOST_REGISTER};
use isa::kind::Width;

// How many numbers an instruction can hold.
const IMMS: u64 = MOST_IMM + 1;

// How far an offset goes up, and down.
const MOST_UP: u64 = 32767;

const MOST_DOWN: u64 = 32768;

// A register and a signed offset, as 16 bits of two's complement.
#[derive(Clone, Copy)]
pub struct Address {
    pub base: u64,
    pub offset: u64,
}

// The number, unless it is above `most`.
fn at_most(n: u64, most: u64) -> Result<u64, Misread>
    ensures value { result ≡ ok_or (at_most most n) TooLarge }
    ensures bound { IfOk result (λ n. n ≤ most) }
{
    if n <= most {
        Ok(n)
    } else {
        Err(Misread::TooLarge)
    }
}

fn register_number(name: &str) -> Result<u64, Misread>
    ensures { result_ok result ≡ register_in name.now }
{
    let digits = name.strip_prefix('r').ok_or(Misread::NoNumber)?;
    at_most(numeral(digits, 10)?, MOST_REGISTER)
}

pub fn register_in(word: &str) -> Result<u64, Problem<'_>>
    ensures { result_ok result ≡ register_in word.now }
{
    register_number(word).map_err(|e| e.told(
        Problem::NotRegister(word),
        Problem::RegisterTooLarge(word),
    ))
}

// The number that a word writes, at most `most`.
fn bounded_number(word: &str, most: u64) -> Result<u64, Misread>
    ensures value { result_ok result ≡ number_up_to most word.now }
    ensures bound { IfOk result (λ n. n ≤ most) }
{
    at_most(number(word)?, most)
}

pub fn number_up_to(word: &str, most: u64) -> Result<u64, Problem<'_>>
    ensures { result_ok result ≡ number_up_to most word.now }
{
    bounded_number(word, most).map_err(|e| e.told(
        Problem::NotNumber(word),
        Problem::NumberTooLarge { word, most },
    ))
}

// The width that has so many bytes, by an arm for each: a search of all widths by their bytes is no shorter.
fn width_of(bytes: u64) -> Option<Width>
    ensures { result ≡ width_of bytes }
{
    match bytes {
        1 => Some(Width::One),
        2 => Some(Width::Two),
        4 => Some(Width::Four),
        _ => None,
    }
}

pub fn width_in(word: &str) -> Result<Width, Problem<'_>>
    ensures { result_ok result ≡ width_in word.now }
{
    number(word)
        .ok()
        .and_then(width_of)
        .ok_or(Problem::NotWidth(word))
}

// The place that a target says, 0 where it is a label.
pub fn target_in(word: &str) -> Result<u64, Problem<'_>>
    ensures { result_ok result ≡ target_in word.now }
{
    if is_name(word) {
        return Ok(0);
    }
    let most = MOST_IMM;
    bounded_number(word, most).map_err(|e| e.told(
        Problem::NotTarget(word),
        Problem::NumberTooLarge { word, most },
    ))
}

// The home that a word @H gives; none where the word is another.
pub fn home_in(word: &str) -> Option<Result<u64, Problem<'_>>>
    ensures { option_map result_ok result ≡ home_in word.now }
{
    word.strip_prefix('@')
        .map(|digits| number_up_to(digits, MOST_HOME))
}

// Where the first sign stands, or the end.
fn sign_place(text: &str) -> usize
    ensures value { result ≡ plain_front text.now }
    ensures cuts { IsCharBoundary text.now result }
{
    text.find(['+', '-']).unwrap_or(text.len())
}

fn bracketed(word: &str) -> Option<&str>
    ensures { option_copied result ≡ bracketed_in word.now }
{
    word.strip_prefix('[')?.strip_suffix(']')
}

// Minus the number that digits write, as 16 bits of two's complement.
fn negative(digits: &str) -> Result<u64, Misread>
    ensures { result_ok result ≡ option_map negated (number_up_to MOST_DOWN digits.now) }
{
    let n = bounded_number(digits, MOST_DOWN)?;
    Ok((IMMS - n) % IMMS)
}

// A signed offset, and 0 where there is none.
fn offset(signed: &str) -> Result<u64, Misread>
    ensures { result_ok result ≡ offset_in signed.now }
{
    if signed.is_empty() {
        return Ok(0);
    }
    if let Some(digits) = signed.strip_prefix('+') {
        return bounded_number(digits, MOST_UP);
    }
    negative(signed.strip_prefix('-').ok_or(Misread::NoNumber)?)
}

pub fn address_in(word: &str) -> Result<Address, Problem<'_>>
    ensures { result_ok result ≡ address_in word.now }
{
    let inner = bracketed(word).ok_or(Problem::NotAddress(word))?;
    let (name, signed) = inner.split_at(sign_place(inner));
    // no `?`: what is no address at all is told before what is too large
    match (register_number(name), offset(signed)) {
        (Ok(base), Ok(offset)) => Ok(Address { base, offset }),
        (Err(Misread::NoNumber), _) | (_, Err(Misread::NoNumber)) => Err(Problem::NotAddress(word)),
        (Err(Misread::TooLarge), _) => Err(Problem::RegisterTooLarge(word)),
        _ => Err(Problem::OffsetTooLarge(word)),
    }
}
