// Writes sheets into every buffer that is too short, then into one that has just the room, and prints what came of it.
#![tactic(auto)]

mod shortest;

use cnf::refusal::{Check, Refusal};
use shortest::{Bytes, Case};
use std::io;
use std::str::from_utf8;

// Prints the bytes of a text, and how many there are.
fn show(rt: &HostRuntime, name: &str, out: &Bytes, written: Option<usize>) -> io::Result<()> {
    let Some(written) = written else {
        return println!(rt; "{name}: not as it should be");
    };
    if let Some(bytes) = out.get(..written)
        && let Ok(text) = from_utf8(bytes)
    {
        println!(rt; "{name}: {written} bytes, and every shorter buffer is refused and unaltered")?;
        return print!(rt; "{text}");
    }
    println!(rt; "{name}: no text")
}

// A sheet at once, and then the same one call by call.
fn both_ways(rt: &HostRuntime, case: Case) -> io::Result<()> {
    let mut out = [shortest::BLANK; shortest::ROOM];
    let printed = shortest::print(case, &mut out);
    show(rt, "at once", &out, printed)?;
    let mut out = [shortest::BLANK; shortest::ROOM];
    let written = shortest::series(case, &mut out);
    show(rt, "call by call", &out, written)
}

// The line of a refusal.
fn refusal_line(rt: &HostRuntime, refusal: Refusal) -> io::Result<()> {
    let mut out = [shortest::BLANK; shortest::ROOM];
    let written = shortest::refused(refusal, &mut out);
    show(rt, "refused line", &out, written)
}

// The values 1 and 0 in turn.
fn turns() -> [u8; 256] {
    let mut values = [0; 256];
    for (i, value) in values.iter_mut().enumerate() {
        if i % 2 == 0 {
            *value = 1;
        }
    }
    values
}

fn main(rt: HostRuntime) -> io::Result<()> {
    let words = [1, 2, 0, -1, 3, 0, -2, -3, 0];
    let satisfied = Case {
        variables: 3,
        words: &words,
        assignment: &[0, 1, 0],
        values: &[0, 1, 0],
    };
    both_ways(&rt, satisfied)?;
    let unknown = Case {
        assignment: &[0, 0, 0],
        values: &[],
        ..satisfied
    };
    both_ways(&rt, unknown)?;
    let values = turns();
    let largest = Case {
        variables: 256,
        words: &[1, -1, 0],
        assignment: &values,
        values: &values,
    };
    both_ways(&rt, largest)?;
    refusal_line(&rt, Check::VariableRange.at(10))?;
    refusal_line(&rt, Check::ValueDue.at(usize::MAX))
}
