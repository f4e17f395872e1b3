// Reads a rule table from a text into a lent words table.
ghost use Rattle.std.specs.Prelude.{◌≡◌, length};
ghost use Rattle.dimacs.specs.Reads.{read_answer, read_table};
ghost use Rattle.dimacs.specs.Grammar.{ReadsTheGrammar};
ghost use Rattle.dimacs.specs.FirstFaults.{RefusesTheFirst};
ghost use Rattle.dimacs.specs.RoundTrips.{WritesBack};

use crate::clauses::{check_clauses, fill};
use crate::head::read_head;
use cnf::refusal::Check;
use words::faults::HeadFault;

// What a text says: its variables, its clauses, and the words that its clauses take, zeros counted.
#[derive(Clone, Copy, Debug, PartialEq, Eq)]
pub struct Problem {
    pub variables: usize,
    pub clauses: usize,
    pub words: usize,
}

// Reads in two passes, so that the words table is written only when nothing is refused.
#[tactic(auto, using(crate::proofs::RoundTrip::writes_back, crate::proofs::Accepts::reads_the_grammar, crate::proofs::FirstFaults::refuses_the_first))]
pub fn read(text: &[u8], words: &mut [i32]) -> Result<Problem, HeadFault>
    ensures answer { result ≡ read_answer text.now (length words.old) }
    ensures table { words.new ≡ read_table text.now words.old }
    ensures back { WritesBack text.now (length words.old) }
    ensures grammar { ReadsTheGrammar text.now (length words.old) }
    ensures first { RefusesTheFirst text.now (length words.old) }
{
    let head = read_head(text)?;
    let tally = check_clauses(text, head)?;
    let count = tally.literals + tally.ended;
    if count > words.len() {
        return Err(HeadFault::Head(Check::WordsRoom.at(0)));
    }
    fill(text, head.end, words);
    Ok(Problem {
        variables: head.variables,
        clauses: head.clauses,
        words: count,
    })
}
