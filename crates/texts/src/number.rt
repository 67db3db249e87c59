// Numbers in base ten, and number fields: 1 to 8 digits, with a value up to the largest payload.
ghost use Rattle.std.specs.Prelude.{◌≡◌, IfOk, vec_items};
ghost use Rattle.std.specs.Option.{option_map};
ghost use Rattle.texts.specs.Numbers.{with_digit, digits_of, number_of};
ghost use Rattle.texts.specs.Texts.{number, numbers, pieces};

use crate::text::Separator;
use std::alloc::{AllocError, Global};

const TEN: u64 = 10;

const MOST_DIGITS: usize = 8;

const LARGEST: u32 = 16_777_215;

// The value with one more digit behind it; none if the byte is no digit or the value passes `most`.
fn with_digit(value: u32, byte: u8, most: u32) -> Option<u32>
    ensures { result ≡ with_digit most value byte }
{
    let digit = match byte as char {
        '0'..='9' => u64::from(byte - b'0'),
        _ => return None,
    };
    let next = u64::from(value) * TEN + digit;
    if next > u64::from(most) {
        return None;
    }
    Some(next as u32)
}

fn digits_value(digits: &[u8], most: u32) -> Option<u32>
    ensures { result ≡ digits_of most 0 digits.now }
{
    let mut value: u32 = 0;
    for byte in digits {
        value = with_digit(value, *byte, most)?;
    }
    Some(value)
}

// The number that the bytes spell with digits alone, one or more, if it is at most `most`.
pub fn number(digits: &[u8], most: u32) -> Option<u32>
    ensures { result ≡ number_of most digits.now }
{
    if digits.is_empty() {
        return None;
    }
    digits_value(digits, most)
}

// The value of a number field; none if the bytes are no number field.
fn read_number(field: &[u8]) -> Option<u32>
    ensures { result ≡ number field.now }
{
    if field.len() > MOST_DIGITS {
        return None;
    }
    number(field, LARGEST)
}

// The values of the fields of a line behind its first; none if one of them is no number field.
pub fn read_numbers(heap: Global, fields: &[u8]) -> Result<Option<Vec<u32>>, AllocError>
    ensures { IfOk result (λ v. option_map vec_items v ≡ numbers (pieces 44 fields.now)) }
{
    let mut values = Vec::new(heap);
    for field in fields.split(|byte| Separator::Comma.is_at(*byte)) {
        let Some(value) = read_number(field) else {
            return Ok(None);
        };
        values.push(value)?;
    }
    Ok(Some(values))
}
