// A sheet written call by call, as a program outside would.
// Stays (rule): a table is handed over as the number of its variables and a lent slice of words.
#![tactic(auto)]

ghost use Rattle.std.specs.Prelude.{◌≡◌};
ghost use Rattle.sheet.specs.Sheets.{begun};
ghost use Rattle.sheet_use.specs.Uses.{filled, torn};

use cnf::refusal::Refusal;
use sheet::sheet::{Effort, Sheet};

// Stays (no plainer): the calls one after another are what a program outside writes, and they show when a sheet may be dropped.
// The sheet of a run that found the assignment in so many steps and dives, with all its values.
pub fn found(
    effort: Effort,
    variables: usize,
    words: &[i32],
    assignment: &[u8],
    out: &mut [u8],
) -> Result<usize, Refusal>
    ensures { (result, out.new) ≡ filled assignment.now (begun effort.steps effort.dives variables words.now assignment.now out.old) }
{
    let sheet = Sheet::begin(effort, variables, words, assignment, out)?;
    let (sheet, outcome) = sheet.add_all(assignment, out);
    if let Err(refusal) = outcome {
        let _ = sheet.tear();
        return Err(refusal);
    }
    sheet.close_or_tear(out)
}

// How many bytes the head of a sheet takes.
pub fn head_bytes(
    effort: Effort,
    variables: usize,
    words: &[i32],
    assignment: &[u8],
    out: &mut [u8],
) -> Result<usize, Refusal>
    ensures { (result, out.new) ≡ torn (begun effort.steps effort.dives variables words.now assignment.now out.old) }
{
    let sheet = Sheet::begin(effort, variables, words, assignment, out)?;
    let written = sheet.tear();
    Ok(written)
}
