// The number that a word writes.
ghost use Rattle.std.specs.Prelude.{◌≡◌, min};
ghost use Rattle.words.specs.Numbers.{unsigned, digits, counting, is_number, decimal_value, valued};

use crate::faults::WordFault;

// The bytes behind the minus in front, or all of them where none stands there.
fn unsigned<'a>(bytes: &'a [u8]) -> &'a [u8]
    ensures { result.now ≡ unsigned bytes.now }
{
    bytes.strip_prefix(b"-").unwrap_or(bytes)
}

fn all_digits(bytes: &[u8]) -> bool
    ensures { result ≡ digits bytes.now }
{
    bytes.iter().all(|b| b.is_ascii_digit())
}

// A digit 1 to 9 and further digits.
fn is_counting(bytes: &[u8]) -> bool
    ensures { result ≡ counting bytes.now }
{
    match bytes {
        [b'1'..=b'9', rest @ ..] => all_digits(rest),
        _ => false,
    }
}

// Whether the bytes have the form of a number.
pub fn is_number(bytes: &[u8]) -> bool
    ensures { result ≡ is_number bytes.now }
{
    matches!(bytes, b"0") || is_counting(unsigned(bytes))
}

// The number that digits write, 100,000 at most.
// Stays (no plainer): a parse needs from_utf8 first, its error would have to be sorted by kind, and it gives no number for bytes that are no digits, of which this promises one too.
fn magnitude(digits: &[u8]) -> u32
    ensures { result ≡ min (decimal_value digits.now) 100000 }
{
    let mut n: u32 = 0;
    for b in digits {
        n = (n * 10 + u32::from(b.saturating_sub(b'0'))).min(100_000);
    }
    n
}

// The value of a number's form that stands at a place of the text.
pub fn value(bytes: &[u8], place: usize) -> Result<i32, WordFault>
    ensures { result ≡ valued bytes.now place }
{
    let n = magnitude(unsigned(bytes)) as i32;
    if n > 99_999 {
        return Err(WordFault::TooLarge(place));
    }
    let negative = matches!(bytes, [b'-', ..]);
    Ok(if negative { -n } else { n })
}
