//! What a word has to be to stand for a name, for digits or for a number.
ghost use Rattle.std.specs.Prelude.{◌≡◌, IfOk, Some, None, if◌then◌else◌};
ghost use Rattle.std.specs.Char.{is_ascii_digit};
ghost use Rattle.std.specs.List.{list_all};
ghost use Rattle.st_door.specs.WordForms.{is_name, is_name_byte, is_digits, digits_of, is_number, number_of};

use st_doors::Digits;
use std::alloc::{AllocError, Global};
use std::str;

/// How many bytes a name may have.
const NAME_LIMIT: usize = 32;

fn is_name_byte(c: u8) -> bool
    ensures { result ≡ is_name_byte c }
{
    c.is_ascii_lowercase() || c.is_ascii_digit() || c == b'_' || c == b'-'
}

fn all_name_bytes(word: &[u8]) -> bool
    ensures { result ≡ list_all is_name_byte word.now }
{
    word.iter().all(|c| is_name_byte(*c))
}

fn all_digits(word: &[u8]) -> bool
    ensures { result ≡ list_all is_ascii_digit word.now }
{
    word.iter().all(|c| c.is_ascii_digit())
}

/// Whether a word is a name: 1 to 32 bytes, the first one a letter.
pub fn is_name(word: &[u8]) -> bool
    ensures { result ≡ is_name word.now }
{
    match word {
        [first, rest @ ..] => {
            first.is_ascii_lowercase() && all_name_bytes(rest) && word.len() <= NAME_LIMIT
        }
        [] => false,
    }
}

/// Whether a word is 1 to `most` digits.
pub fn is_digits(most: usize, word: &[u8]) -> bool
    ensures { result ≡ is_digits most word.now }
{
    !word.is_empty() && word.len() <= most && all_digits(word)
}

/// The digits that a word of digits shows.
pub fn digits_of(alloc: Global, word: &[u8]) -> Result<Digits, AllocError>
    ensures { IfOk result (λ digits. digits ≡ digits_of word.now) }
{
    let mut digits = Digits::new(alloc);
    for c in word {
        digits.push(c.saturating_sub(b'0'))?;
    }
    Ok(digits)
}

/// The number that a word of 1 to `most` digits shows, if it is not greater than `greatest`.
pub fn number_of(most: usize, greatest: u64, word: &[u8]) -> Option<u64>
    ensures { result ≡ (if is_number most greatest word.now then Some (number_of word.now) else None) }
{
    if !is_digits(most, word) {
        return None;
    }
    let Ok(text) = str::from_utf8(word) else {
        return None;
    };
    match text.parse::<u64>() {
        Ok(number) if number <= greatest => Some(number),
        _ => None,
    }
}
