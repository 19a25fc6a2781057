// The fields of a line. Each reader gives a field's value and the text after it, where a text begins with such a field.
ghost use Rattle.std.specs.Prelude.{◌≡◌};
ghost use Rattle.std.specs.List.{list_all};
ghost use Rattle.report_spec.specs.Valid.{is_letter};
ghost use Rattle.verdict_report.specs.Reading.{Gives, after, field_at, number_of, number_at, small_at, address_of, address_at, choices_of, back_at};

use crate::address_text;
use hex::FromHex;
use itoa::Buffer;
use std::str;

/// What stands after these bytes.
#[tactic(auto, unfolding(crate::specs::Reading::after))]
pub(crate) fn after<'a>(text: &'a [u8], prefix: &[u8]) -> Option<&'a [u8]>
    ensures { Gives (λ rest. rest.now) result (after prefix.now text.now) }
{
    text.strip_prefix(prefix)
}

/// The text before the first byte of this value, and the text after that byte.
pub(crate) fn field_at(text: &[u8], end: u8) -> Option<(&[u8], &[u8])>
    ensures { Gives (λ field. (field.0.now, field.1.now)) result (field_at end text.now) }
{
    let at = text.iter().position(|byte| *byte == end)?;
    Some((&text[..at], &text[at + 1..]))
}

/// The number that has this text.
fn number_of(digits: &[u8]) -> Option<u64>
    ensures { result ≡ number_of digits.now }
{
    let n = str::from_utf8(digits).ok()?.parse::<u64>().ok()?;
    let mut buffer = Buffer::new();
    if buffer.format(n).as_bytes() == digits {
        Some(n)
    } else {
        None
    }
}

/// A number and the space after it.
#[tactic(auto, unfolding(crate::specs::Reading::number_at))]
pub(crate) fn number_at(text: &[u8]) -> Option<(u64, &[u8])>
    ensures { Gives (λ read. (read.0, read.1.now)) result (number_at text.now) }
{
    let (digits, rest) = field_at(text, b' ')?;
    Some((number_of(digits)?, rest))
}

/// A number below 2 ^ 32, and the space after it.
#[tactic(auto, unfolding(crate::specs::Reading::small_at))]
pub(crate) fn small_at(text: &[u8]) -> Option<(u32, &[u8])>
    ensures { Gives (λ read. (read.0, read.1.now)) result (small_at text.now) }
{
    let (n, rest) = number_at(text)?;
    Some((u32::try_from(n).ok()?, rest))
}

/// The address that has this text.
#[tactic(auto, unfolding(crate::specs::Reading::address_of))]
fn address_of(prefix: &[u8; 10]) -> Option<u32>
    ensures { result ≡ address_of prefix.now }
{
    let p = u32::from_be_bytes(<[u8; 4]>::from_hex(&prefix[2..]).ok()?);
    if address_text(p) == *prefix {
        Some(p)
    } else {
        None
    }
}

#[tactic(auto, unfolding(crate::specs::Reading::address_at))]
pub(crate) fn address_at(text: &[u8]) -> Option<(u32, &[u8])>
    ensures { Gives (λ read. (read.0, read.1.now)) result (address_at text.now) }
{
    let (prefix, rest) = text.split_first_chunk::<10>()?;
    Some((address_of(prefix)?, rest))
}

/// Letters, or none for a dash.
#[tactic(auto, unfolding(crate::specs::Reading::choices_of))]
pub(crate) fn choices_of(letters: &[u8]) -> Option<&[u8]>
    ensures { Gives (λ choices. choices.now) result (choices_of letters.now) }
{
    if letters == b"-".as_slice() {
        return Some(&[]);
    }
    if !letters.is_empty() && are_letters(letters) {
        Some(letters)
    } else {
        None
    }
}

fn are_letters(letters: &[u8]) -> bool
    ensures { result ≡ list_all is_letter letters.now }
{
    letters
        .iter()
        .all(|letter| *letter == b'n' || *letter == b't')
}

/// The newest return address, if there is one.
#[tactic(auto, unfolding(crate::specs::Reading::back_at))]
pub(crate) fn back_at(text: &[u8]) -> Option<(Option<u32>, &[u8])>
    ensures { Gives (λ read. (read.0, read.1.now)) result (back_at text.now) }
{
    if let Some(rest) = after(text, b"none") {
        return Some((None, rest));
    }
    let (p, rest) = address_at(text)?;
    Some((Some(p), rest))
}
