// The line that tells of a refusal.
ghost use Rattle.std.specs.Prelude.{◌≡◌};
ghost use Rattle.sheet.specs.RefusedLines.{line_for};

use cnf::refusal::{Check, Refusal};
use lay::put::Line;

// Writes `c refused N at P` and a line end, and gives the number of bytes.
pub fn refused_line(refusal: Refusal, out: &mut [u8]) -> Result<usize, Refusal>
    ensures { (result, out.new) ≡ line_for refusal out.old }
{
    let line = Line {
        before: b"c refused ",
        first: refusal.check.number() as usize,
        between: b" at ",
        second: refusal.place,
        after: b"\n",
    };
    line.put(out, 0).ok_or(Check::BytesRoom.at(0))
}
