// A whole sheet at once.
ghost use Rattle.std.specs.Prelude.{◌≡◌, ◌*◌, ◌≤◌, length, OnOk, nat_le};
ghost use Rattle.sheet.specs.Promises.{Tells, SeriesLeavesText};
ghost use Rattle.sheet.specs.Sheets.{added_all, due_of, finished, printed};
ghost use Rattle.sheet.specs.Texts.{value_text, values_from, value_part, sheet_text};

use crate::sheet::{Effort, Sheet, head_line};
use cnf::refusal::{Check, Refusal};
use cnf::table;
use lay::pieces::number_width;

// How many bytes the value of a variable takes on its line.
fn value_width(variable: usize, value: u8) -> usize
    ensures width { result ≡ length (value_text variable value) }
    ensures few { result ≤ 22 }
{
    let digits = number_width(variable);
    if value == 1 { 1 + digits } else { 2 + digits }
}

// How many bytes all values take on their line.
fn values_width(assignment: &[u8]) -> usize
    requires { length assignment.now ≤ 256 }
    ensures width { result ≡ length (values_from 1 assignment.now) }
    ensures few { result ≤ 22 * 256 }
{
    let mut width = 0;
    for (i, value) in assignment.iter().enumerate() {
        width += value_width(i + 1, *value);
    }
    width
}

// What a sheet tells of a table: whether the assignment satisfies every clause, and the assignment.
#[derive(Clone, Copy)]
struct Outcome<'a> {
    satisfied: bool,
    assignment: &'a [u8],
    ghost few: { length assignment.now ≤ 256 },
}

impl<'a> Outcome<'a> {
    // How many bytes the line of the values takes, if there is one.
    fn line_width(&self) -> usize
        ensures { result ≡ length (value_part self.now.satisfied self.now.assignment.now) }
    {
        if self.satisfied {
            4 + values_width(self.assignment)
        } else {
            0
        }
    }

    // Whether a whole sheet takes at most so many bytes.
    fn fits(&self, effort: Effort, room: usize) -> bool
        ensures { result ≡ nat_le (length (sheet_text effort.steps effort.dives self.now.satisfied self.now.assignment.now)) room }
    {
        let line = self.line_width();
        line <= room && head_line(effort, self.satisfied).fits(room - line)
    }

    // The values that a sheet takes.
    fn due(&self) -> &'a [u8]
        ensures { result.now ≡ due_of self.now.satisfied self.now.assignment.now }
    {
        if self.satisfied { self.assignment } else { b"" }
    }
}

// Adds the values and closes the sheet; tears it where one of these is refused.
fn fill(sheet: Sheet, values: &[u8], out: &mut [u8]) -> Result<usize, Refusal>
    ensures { (result, out.new) ≡ finished (added_all sheet values.now out.old) }
{
    let (sheet, outcome) = sheet.add_all(values, out);
    if let Err(refusal) = outcome {
        let _ = sheet.tear();
        return Err(refusal);
    }
    sheet.close_or_tear(out)
}

// Stays (rule): a table is handed over as the number of its variables and a lent slice of words.
// Writes a whole sheet, or nothing where it does not fit, and gives the number of bytes.
pub fn print(
    effort: Effort,
    variables: usize,
    words: &[i32],
    assignment: &[u8],
    out: &mut [u8],
) -> Result<usize, Refusal>
    ensures text { (result, out.new) ≡ printed effort.steps effort.dives variables words.now assignment.now out.old }
    ensures tells { OnOk result (Tells words.now assignment.now out.new) }
    ensures series { SeriesLeavesText effort.steps effort.dives variables words.now assignment.now out.old }
{
    let satisfied = table::check(variables, words, assignment)?.is_none();
    let outcome = Outcome {
        satisfied,
        assignment,
    };
    if !outcome.fits(effort, out.len()) {
        return Err(Check::BytesRoom.at(0));
    }
    let sheet = Sheet::begin(effort, variables, words, assignment, out)?;
    fill(sheet, outcome.due(), out)
}
