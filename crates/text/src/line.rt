// What a line gives for its place: an instruction, a packed word, or a line of a listing.
ghost use Rattle.std.specs.Prelude.{◌≡◌, is_some};
ghost use Rattle.std.specs.Option.{option_map};
ghost use Rattle.std.specs.Result.{result_ok};
ghost use Rattle.isa.specs.Refusals.{refusal_number};
ghost use Rattle.isa.specs.Words.{unpacked};
ghost use Rattle.text.specs.Lines.{agrees, draft_at, listed_word, number_before_colon, refused_so, says_refused, word_in};
ghost use Rattle.text.specs.Numerals.{hex_digits};
ghost use Rattle.text.specs.Statements.{view};
ghost use Rattle.text.specs.Texts.{texts};

use crate::labels::before_colon;
use crate::numeral::{hex_digits, number, numeral};
use crate::problem::Problem;
use crate::statement::{Draft, instruction};
use isa::codec::unpack;
use isa::refusal::WordRefusal;

// The most hex digits that a packed word has.
const WORD_DIGITS: usize = 16;

fn begins_hex(word: &str) -> bool
    ensures { result ≡ is_some (hex_digits word.now) }
{
    hex_digits(word).is_some()
}

// A packed word, which need not be that of an instruction.
fn word_in(word: &str) -> Result<u64, Problem<'_>>
    ensures { result_ok result ≡ word_in word.now }
{
    hex_digits(word)
        .filter(|digits| digits.len() <= WORD_DIGITS)
        .and_then(|digits| numeral(digits, 16).ok())
        .ok_or(Problem::NotWord(word))
}

// The number of a word such as "13:".
fn number_before_colon(word: &str) -> Option<u64>
    ensures { result ≡ number_before_colon word.now }
{
    number(before_colon(word)?).ok()
}

// Whether the words after "refused" begin with a refusal's number.
fn says_refused(refusal: WordRefusal, words: &[&str]) -> bool
    ensures { result ≡ says_refused (refusal_number refusal) (texts words.now) }
{
    let said = words.first().and_then(|first| number_before_colon(first));
    said == Some(refusal.number())
}

// Whether a word is refused as the words after "refused" say.
fn is_refused_so(packed: u64, words: &[&str]) -> bool
    ensures { result ≡ refused_so (unpacked packed) (texts words.now) }
{
    unpack(packed).is_err_and(|refusal| says_refused(refusal, words))
}

// Whether the words after a packed word in a listing are its text, which may be left out.
fn agrees<'a>(packed: u64, text: &[&'a str]) -> Result<bool, Problem<'a>>
    ensures { result_ok result ≡ agrees packed (texts text.now) }
{
    let Some((first, rest)) = text.split_first() else {
        return Ok(true);
    };
    if *first == "refused" {
        return Ok(is_refused_so(packed, rest));
    }
    Ok(instruction(first, rest)? == Draft::Word(packed))
}

// A packed word, with its text after it in a listing.
fn listed_word<'a>(word: &'a str, text: &[&'a str]) -> Result<u64, Problem<'a>>
    ensures { result_ok result ≡ listed_word word.now (texts text.now) }
{
    let packed = word_in(word)?;
    if agrees(packed, text)? {
        Ok(packed)
    } else {
        Err(Problem::Disagrees(packed))
    }
}

// What the words of a line give at a place. They come as `split_first` gives them, since a line that
// gives something has a first word.
#[tactic(auto, unfolding(crate::specs::Lines::draft_at))]
pub fn draft<'a>(place: usize, first: &'a str, rest: &[&'a str]) -> Result<Draft<'a>, Problem<'a>>
    ensures { option_map view (result_ok result) ≡ draft_at place first.now (texts rest.now) }
{
    if begins_hex(first) {
        return Ok(Draft::Word(listed_word(first, rest)?));
    }
    let Ok(given) = number(first) else {
        return instruction(first, rest);
    };
    match rest.split_first() {
        Some((word, text)) if begins_hex(word) => {
            if given != place as u64 {
                return Err(Problem::WrongPlace { word: first, place });
            }
            Ok(Draft::Word(listed_word(word, text)?))
        }
        _ => Err(Problem::UnknownMnemonic(first)),
    }
}
