// A sheet that tells the outcome of a run, written into lent bytes call after call.
ghost use Rattle.std.specs.Prelude.{◌≡◌, true};
ghost use Rattle.lay.specs.Lines.{line_of};
ghost use Rattle.sheet.specs.Sheets.{begun, added, added_all, closed, ended};
ghost use Rattle.sheet.specs.Texts.{verdict, head_text, lead_of};

use cnf::refusal::{Check, Refusal};
use cnf::table;
use lay::put::{Line, put_bytes, put_number};

// The bytes since it began, the values that it takes in all (none where the outcome is unknown), those that were added, and
// whether it is closed or torn.
// Stays (rule): a sheet is plain numbers, and `spent` is what its drop requires.
pub struct Sheet {
    written: usize,
    values: usize,
    added: usize,
    spent: bool,
}

// A begun sheet has to be closed or torn.
impl Drop for Sheet {
    fn drop(self)
        requires { self.spent ≡ true }
    {
        let Sheet {
            written: _,
            values: _,
            added: _,
            spent: _,
        } = self;
    }
}

// How many steps a run took, and how many dives.
#[derive(Clone, Copy)]
pub struct Effort {
    pub steps: u32,
    pub dives: u32,
}

// The line of the verdict, behind the end of the line before it.
fn verdict_line(satisfied: bool) -> &'static [u8]
    ensures { result.now ≡ verdict satisfied }
{
    if satisfied {
        b"\ns SATISFIABLE\n"
    } else {
        b"\ns UNKNOWN\n"
    }
}

// The two lines that a sheet begins with.
pub(crate) fn head_line(effort: Effort, satisfied: bool) -> Line<'static>
    ensures { line_of result ≡ head_text effort.steps effort.dives satisfied }
{
    Line {
        before: b"c steps ",
        first: effort.steps as usize,
        between: b" dives ",
        second: effort.dives as usize,
        after: verdict_line(satisfied),
    }
}

// Stays (rule): values are lent as bytes, 0 or 1.
// What stands before the number of the variable that gets a value.
fn lead(first: bool, value: u8) -> &'static [u8]
    ensures { result.now ≡ lead_of first value }
{
    match (first, value) {
        (true, 1) => b"v ",
        (true, _) => b"v -",
        (false, 1) => b" ",
        (false, _) => b" -",
    }
}

impl Sheet {
    // Stays (rule): a table is handed over as the number of its variables and a lent slice of words.
    // Begins a sheet: the steps and the dives, and whether the assignment satisfies every clause of the table.
    pub fn begin(
        effort: Effort,
        variables: usize,
        words: &[i32],
        assignment: &[u8],
        out: &mut [u8],
    ) -> Result<Sheet, Refusal>
        ensures { (result, out.new) ≡ begun effort.steps effort.dives variables words.now assignment.now out.old }
    {
        let satisfied = table::check(variables, words, assignment)?.is_none();
        let written = head_line(effort, satisfied)
            .put(out, 0)
            .ok_or(Check::BytesRoom.at(0))?;
        Ok(Sheet {
            written,
            values: if satisfied { variables } else { 0 },
            added: 0,
            spent: false,
        })
    }

    // Stays (rule): the sheet is given back beside the outcome, taken or refused, so that whoever adds has it at hand.
    // Adds the value of the next variable, 0 or 1.
    pub fn add(mut self, value: u8, out: &mut [u8]) -> (Sheet, Result<(), Refusal>)
        ensures { (result, out.new) ≡ added self value out.old }
    {
        if self.added >= self.values {
            return (self, Err(Check::ValueDue.at(0)));
        }
        if value > 1 {
            return (self, Err(Check::StartValues.at(0)));
        }
        let variable = self.added + 1;
        match put_number(out, self.written, lead(self.added == 0, value), variable) {
            Some(written) => {
                self.written = written;
                self.added = variable;
                (self, Ok(()))
            }
            None => (self, Err(Check::BytesRoom.at(0))),
        }
    }

    // Adds values up to the first that is refused.
    pub fn add_all(self, values: &[u8], out: &mut [u8]) -> (Sheet, Result<(), Refusal>)
        ensures { (result, out.new) ≡ added_all self values.now out.old }
    {
        let mut sheet = self;
        for value in values {
            let (next, outcome) = sheet.add(*value, out);
            if let Err(refusal) = outcome {
                return (next, Err(refusal));
            }
            sheet = next;
        }
        (sheet, Ok(()))
    }

    // Ends the line of values, if there is one, and gives the number of bytes since the sheet began.
    pub fn close(mut self, out: &mut [u8]) -> Result<usize, (Sheet, Refusal)>
        ensures { (result, out.new) ≡ closed self out.old }
    {
        if self.added < self.values {
            return Err((self, Check::ValueDue.at(0)));
        }
        let ending: &[u8] = if self.values == 0 { b"" } else { b" 0\n" };
        match put_bytes(out, self.written, ending) {
            Some(written) => {
                self.spent = true;
                Ok(written)
            }
            None => Err((self, Check::BytesRoom.at(0))),
        }
    }

    // Closes a sheet, or tears it where the closing is refused.
    pub fn close_or_tear(self, out: &mut [u8]) -> Result<usize, Refusal>
        ensures { (result, out.new) ≡ ended (closed self out.old) }
    {
        match self.close(out) {
            Ok(written) => Ok(written),
            Err((given_back, refusal)) => {
                let _ = given_back.tear();
                Err(refusal)
            }
        }
    }

    // Gives a sheet up where it stands, and gives the number of bytes since it began.
    pub fn tear(mut self) -> usize
        ensures { result ≡ self.written }
    {
        let written = self.written;
        self.spent = true;
        written
    }
}
