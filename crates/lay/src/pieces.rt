// Pieces of text, each laid into lent bytes that are known to have room for it.
// Stays (no plainer): the bytes and the place are two parameters, since the sheet lends its bytes anew at each call, and the writer goes by the same calls.
ghost use Rattle.std.specs.Prelude.{◌≡◌, ◌+◌, ◌≤◌, length, decimal};
ghost use Rattle.std.specs.Fmt.{signed_decimal};
ghost use Rattle.lay.specs.Laid.{laid};

use itoa::{Buffer, Integer};

// Lays some bytes, and gives the place after them.
pub fn lay_bytes(out: &mut [u8], at: usize, bytes: &[u8]) -> usize
    requires { at + length bytes.now ≤ length out.old }
    ensures end { result ≡ at + length bytes.now }
    ensures bytes { out.new ≡ laid out.old at bytes.now }
{
    let end = at + bytes.len();
    out[at..end].copy_from_slice(bytes);
    end
}

// How many bytes a number takes.
fn width<N: Integer>(number: N) -> usize
    ensures value { result ≡ length (N.text number) }
    ensures few { result ≤ N.MAX_STR_LEN }
{
    Buffer::new().format(number).len()
}

// Lays a number, and gives the place after it.
fn lay<N: Integer>(out: &mut [u8], at: usize, number: N) -> usize
    requires { at + length (N.text number) ≤ length out.old }
    ensures end { result ≡ at + length (N.text number) }
    ensures bytes { out.new ≡ laid out.old at (N.text number) }
{
    let mut buffer = Buffer::new();
    lay_bytes(out, at, buffer.format(number).as_bytes())
}

// How many decimal digits a number has.
// Stays (speed): a single digit, with or without a minus, by itself, here and below. Most words of small tables are such, and with a buffer for each a table of them took half as long again to write.
pub fn number_width(number: usize) -> usize
    ensures value { result ≡ length (decimal number) }
    ensures few { result ≤ 20 }
{
    if number < 10 {
        return 1;
    }
    width(number)
}

// Lays the decimal digits of a number, and gives the place after them.
pub fn lay_number(out: &mut [u8], at: usize, number: usize) -> usize
    requires { at + length (decimal number) ≤ length out.old }
    ensures end { result ≡ at + length (decimal number) }
    ensures bytes { out.new ≡ laid out.old at (decimal number) }
{
    if number < 10 {
        out[at] = b'0' + number as u8;
        return at + 1;
    }
    lay(out, at, number)
}

// How many bytes a signed number takes, with its minus.
pub fn word_width(word: i32) -> usize
    ensures value { result ≡ length (signed_decimal word) }
    ensures few { result ≤ 21 }
{
    if word.unsigned_abs() >= 10 {
        return width(word);
    }
    if word < 0 { 2 } else { 1 }
}

// Lays a signed number, and gives the place after it.
pub fn lay_word(out: &mut [u8], at: usize, word: i32) -> usize
    requires { at + length (signed_decimal word) ≤ length out.old }
    ensures end { result ≡ at + length (signed_decimal word) }
    ensures bytes { out.new ≡ laid out.old at (signed_decimal word) }
{
    let magnitude = word.unsigned_abs() as usize;
    if magnitude >= 10 {
        lay(out, at, word)
    } else if word < 0 {
        let digit = lay_bytes(out, at, b"-");
        lay_number(out, digit, magnitude)
    } else {
        lay_number(out, at, magnitude)
    }
}
