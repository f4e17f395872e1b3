// Pieces of text put into lent bytes: all of a piece where it fits, else nothing.
ghost use Rattle.std.specs.Prelude.{◌≡◌, ◌++◌, length, decimal, nat_le};
ghost use Rattle.lay.specs.Laid.{put};
ghost use Rattle.lay.specs.Lines.{line_of};

use crate::pieces::{lay_bytes, lay_number, number_width};

// Puts some bytes, and gives the place after them.
pub fn put_bytes(out: &mut [u8], at: usize, bytes: &[u8]) -> Option<usize>
    ensures { (result, out.new) ≡ put out.old at bytes.now }
{
    let room = out.len().checked_sub(at)?;
    if bytes.len() > room {
        return None;
    }
    Some(lay_bytes(out, at, bytes))
}

// Puts some bytes and a number behind them, and gives the place after both.
pub fn put_number(out: &mut [u8], at: usize, lead: &[u8], number: usize) -> Option<usize>
    ensures { (result, out.new) ≡ put out.old at (lead.now ++ decimal number) }
{
    let room = out.len().checked_sub(at)?.checked_sub(lead.len())?;
    if number_width(number) > room {
        return None;
    }
    let digits = lay_bytes(out, at, lead);
    Some(lay_number(out, digits, number))
}

// Two numbers with a text before, between and after them.
#[derive(Clone, Copy)]
pub struct Line<'a> {
    pub before: &'a [u8],
    pub first: usize,
    pub between: &'a [u8],
    pub second: usize,
    pub after: &'a [u8],
}

impl Line<'_> {
    // Whether the line takes at most so many bytes.
    pub fn fits(&self, room: usize) -> bool
        ensures { result ≡ nat_le (length (line_of self.now)) room }
    {
        let digits = number_width(self.first) + number_width(self.second);
        let (before, between, after) = (self.before.len(), self.between.len(), self.after.len());
        if before > room || between > room - before || after > room - before - between {
            return false;
        }
        digits <= room - before - between - after
    }

    // Puts the line, and gives the place after it.
    pub fn put(&self, out: &mut [u8], at: usize) -> Option<usize>
        ensures { (result, out.new) ≡ put out.old at (line_of self.now) }
    {
        let room = out.len().checked_sub(at)?;
        if !self.fits(room) {
            return None;
        }
        let first = lay_bytes(out, at, self.before);
        let between = lay_number(out, first, self.first);
        let second = lay_bytes(out, between, self.between);
        let after = lay_number(out, second, self.second);
        Some(lay_bytes(out, after, self.after))
    }
}
