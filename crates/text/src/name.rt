// The names of labels.
ghost use Rattle.std.specs.Prelude.{◌≡◌};
ghost use Rattle.text.specs.Names.{is_name, is_part, is_start};

fn is_start(byte: u8) -> bool
    ensures { result ≡ is_start byte }
{
    byte.is_ascii_alphabetic() || byte == b'_'
}

fn is_part(byte: u8) -> bool
    ensures { result ≡ is_part byte }
{
    byte.is_ascii_alphanumeric() || byte == b'_'
}

// A letter or _, and then letters, digits and _.
pub fn is_name(word: &str) -> bool
    ensures { result ≡ is_name word.now }
{
    // a match: no proof was found for is_some_and, with a closure inside its closure
    match word.as_bytes().split_first() {
        Some((first, rest)) => is_start(*first) && rest.iter().all(|byte| is_part(*byte)),
        None => false,
    }
}
