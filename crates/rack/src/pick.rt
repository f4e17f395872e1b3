// The answer of the program to a text: the sheet of the run on the table that the text spells, or the line of its first refusal.
ghost use Rattle.std.specs.Prelude.{◌≡◌, ◌≤◌, length, take, IfOk, Ok};
ghost use Rattle.cnf.specs.Tables.{Legal};
ghost use Rattle.dimacs.specs.Reads.{read_answer};
ghost use Rattle.engine.specs.Engines.{held};
ghost use Rattle.engine.specs.Steps.{dives_in};
ghost use Rattle.sheet.specs.RefusedLines.{line_for};
ghost use Rattle.rack.specs.Answers.{answer_to, count_of, sheet_of, sheet_for, run_on, bytes_of};
ghost use Rattle.rack.specs.Parts.{bytes_in, Holds, effort_of, load_and_run};

use cnf::refusal::{Check, Refusal};
use dimacs::read::{Problem, read};
use engine::answers::Move;
use engine::engine::Engine;
use policy::admission::Cca;
use policy::generator::Generator;
use series::call::{Answer, Call, Lent, Part};
use series::replay::replay;
use sheet::print::print;
use sheet::refused::refused_line;
use sheet::sheet::Effort;

// Room for the words of every table.
pub const WORDS: usize = 5_120;

// The seed of the numbers, and the steps that a run is given.
pub const SEED: u32 = 1;

pub const BUDGET: usize = 1_000;

// Stays (no plainer): a count that u32 could not hold is told as the greatest that it can. A run has no such count, and a clause that says so would ask more of every answer.
// The steps and the dives that a run answered, or its refusal.
fn effort(answer: Result<Answer, Refusal>) -> Result<Effort, Refusal>
    ensures { result ≡ effort_of answer }
{
    match answer? {
        Answer::Ran(_, steps, dives) => Ok(Effort {
            steps: u32::try_from(steps).unwrap_or(u32::MAX),
            dives: u32::try_from(dives).unwrap_or(u32::MAX),
        }),
        _ => Ok(Effort { steps: 0, dives: 0 }),
    }
}

// The values of the engine's variables, one byte each, where there is a value lent for each.
fn read_values(engine: &Engine, values: &mut [u8])
    ensures { Holds (held engine.now) (length values.old) → values.new ≡ bytes_in (held engine.now) }
{
    // Stays (no plainer): false where nothing is held. The contract speaks only where something is, and a clause that asks for it would stand in each function above, of a trail of another length too.
    for (x, value) in values.iter_mut().enumerate() {
        *value = u8::from(engine.value(x + 1).unwrap_or(false));
    }
}

// A load of so many words with every variable at 0, and a run.
fn load_and_run(variables: usize, words: usize) -> [Call; 2]
    ensures { result ≡ load_and_run variables words 1000 }
{
    [
        Call::Load {
            variables,
            words: Part { from: 0, to: words },
            start: Part {
                from: 0,
                to: variables,
            },
        },
        Call::Run {
            policy: 0,
            source: 0,
            budget: BUDGET,
        },
    ]
}

// Stays (no plainer): the words, the trail, the values and the bytes are four parameters here and below. In a struct of lent parts each clause would have to say of every part what it holds before and after.
// Makes the run on the table, reads the values that it ends with, and gives its steps and its dives. There is a value lent for each variable. A trail of another length than the budget's is answered too, and nothing is promised of the run then.
fn play(
    variables: usize,
    words: &[i32],
    trail: &mut [Move],
    values: &mut [u8],
) -> Result<Effort, Refusal>
    requires table { Legal variables words.now }
    requires values { length values.old ≡ variables }
    ensures counts { length trail.old ≡ 1000 → result ≡ Ok (record { steps = length (run_on variables words.now).moves; dives = dives_in (run_on variables words.now).moves }) }
    ensures values { length trail.old ≡ 1000 → values.new ≡ bytes_of (run_on variables words.now).model }
{
    let start = [0u8; 256];
    let calls = load_and_run(variables, words.len());
    let mut sources = [Generator::new(SEED)?];
    let mut answers = [Ok(Answer::Done), Ok(Answer::Done)];
    let engine = replay(
        &calls,
        Lent {
            words,
            starts: &start,
            policies: &[Cca],
        },
        &mut sources,
        trail,
        &mut answers,
    );
    read_values(&engine, values);
    effort(answers[1])
}

// The sheet of the run on a table.
fn solve(
    variables: usize,
    words: &[i32],
    trail: &mut [Move],
    values: &mut [u8],
    out: &mut [u8],
) -> Result<usize, Refusal>
    requires table { Legal variables words.now }
    requires values { length values.old ≡ variables }
    ensures whole { length trail.old ≡ 1000 → (result, out.new) ≡ sheet_for variables words.now out.old }
    ensures fits { IfOk result (λ n. n ≤ length out.old) }
{
    let effort = play(variables, words, trail, values)?;
    print(effort, variables, words, values, out)
}

// The sheet of a table that was read. Fewer values than variables are refused.
fn print_found(
    problem: Problem,
    words: &[i32],
    trail: &mut [Move],
    values: &mut [u8],
    out: &mut [u8],
) -> Result<usize, Refusal>
    requires room { problem.words ≤ length words.now }
    requires table { Legal problem.variables (take problem.words words.now) }
    ensures fits { IfOk result (λ n. n ≤ length out.old) }
    ensures whole { length trail.old ≡ 1000 → length values.old ≡ 256 → (result, out.new) ≡ sheet_for problem.variables (take problem.words words.now) out.old }
{
    let variables = problem.variables;
    if values.len() < variables {
        return Err(Check::StartValues.at(values.len()));
    }
    solve(
        variables,
        &words[..problem.words],
        trail,
        &mut values[..variables],
        out,
    )
}

// The sheet of the table that a text spells, or the first refusal.
fn print_text(
    text: &[u8],
    words: &mut [i32],
    trail: &mut [Move],
    values: &mut [u8],
    out: &mut [u8],
) -> Result<usize, Refusal>
    ensures fits { IfOk result (λ n. n ≤ length out.old) }
    ensures whole { length words.old ≡ 5120 → length trail.old ≡ 1000 → length values.old ≡ 256 → (result, out.new) ≡ sheet_of text.now (read_answer text.now 5120) out.old }
{
    let problem = read(text, words)?;
    print_found(problem, words, trail, values, out)
}

// Stays (no plainer): 0 is the number of bytes that are written where the line does not fit.
// Writes the line of a refusal where it fits, and gives the number of bytes.
fn tell(refusal: Refusal, out: &mut [u8]) -> usize
    ensures line { (result, out.new) ≡ count_of (line_for refusal out.old) }
    ensures within { result ≤ length out.old }
{
    refused_line(refusal, out).unwrap_or(0)
}

// Writes the sheet, or the line of the first refusal, and gives the number of bytes: the whole answer where as much is lent as the program lends.
pub fn answer(
    text: &[u8],
    words: &mut [i32],
    trail: &mut [Move],
    values: &mut [u8],
    out: &mut [u8],
) -> usize
    ensures answer { length words.old ≡ 5120 → length trail.old ≡ 1000 → length values.old ≡ 256 → (result, out.new) ≡ answer_to text.now out.old }
    ensures within { result ≤ length out.old }
{
    match print_text(text, words, trail, values, out) {
        Ok(count) => count,
        Err(refusal) => tell(refusal, out),
    }
}
