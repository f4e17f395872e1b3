// Reads a rule table from standard input, looks for an assignment that satisfies it, and prints the result sheet.
#![tactic(auto)]

ghost use Rattle.std.specs.Prelude.{◌≡◌, ◌≤◌, length};
ghost use Rattle.rack.specs.Answers.{answer_to};

mod pick;

use crate::pick::answer;
use cnf::tally::MOST_VARIABLES;
use dimacs::head::MOST_BYTES;
use engine::answers::Move;
use std::io;
use std::io::{Read, Write};

// Room for the longest sheet.
const SHEET: usize = 2_048;

// The whole answer to a text: what calls this has to lend as much as it needs.
fn whole_answer(
    text: &[u8],
    words: &mut [i32],
    trail: &mut [Move],
    values: &mut [u8],
    out: &mut [u8],
) -> usize
    requires words { length words.old ≡ 5120 }
    requires trail { length trail.old ≡ 1000 }
    requires values { length values.old ≡ 256 }
    ensures answer { (result, out.new) ≡ answer_to text.now out.old }
    ensures within { result ≤ length out.old }
{
    answer(text, words, trail, values, out)
}

fn main(rt: HostRuntime) -> io::Result<()> {
    let heap = rt.alloc();
    let mut text = Vec::new(heap);
    rt.stdin()
        .take(MOST_BYTES as u64 + 1)
        .read_to_end(&mut text)?;
    let mut words = vec![in heap; 0i32; pick::WORDS]?;
    let mut trail = vec![in heap; Move::default(); pick::BUDGET]?;
    let mut values = vec![in heap; 0u8; MOST_VARIABLES]?;
    let mut out = vec![in heap; 0u8; SHEET]?;
    let written = whole_answer(&text, &mut words, &mut trail, &mut values, &mut out);
    rt.stdout().write_all(&out[0..written])
}
