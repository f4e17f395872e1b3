// The clauses of a text, word by word.
// Stays (no plainer): head and tally are two parameters, and the tally's bound is a clause of three functions. The head is the same for the whole text and the tally another at each word; and a tally's fields are public, so that its bound as a fact of the type would ask more of whoever makes one.
ghost use Rattle.std.specs.Prelude.{◌≡◌, ◌≤◌, ◌++◌, length, drop};
ghost use Rattle.cnf.specs.Scans.{no_words};
ghost use Rattle.words.specs.Words.{said, tokens};
ghost use Rattle.dimacs.specs.Reads.{taken, said_taken, finished, clauses_from, numbers_of};

use crate::head::Head;
use cnf::refusal::Check;
use cnf::tally::Tally;
use words::faults::ClauseFault;
use words::word::{Reader, Word};

// The tally with one number more, which stands at a place of the text.
fn take_number(tally: Tally, head: Head, place: usize, number: i32) -> Result<Tally, ClauseFault>
    requires { tally.ended ≤ 1024 }
    ensures { result ≡ taken head.variables head.clauses tally place number }
{
    let clause = tally.ended + 1;
    if tally.ended >= head.clauses {
        let refusal = Check::ClauseCount.at(place);
        return Err(ClauseFault::Rule { refusal, clause });
    }
    tally
        .word(head.variables, number)
        .map_err(|check| ClauseFault::Rule {
            refusal: check.at(place),
            clause,
        })
}

// The tally with one word more, or nothing at the text's end.
fn take_word(tally: Tally, head: Head, word: Word) -> Result<Option<Tally>, ClauseFault>
    requires { tally.ended ≤ 1024 }
    ensures { result ≡ said_taken head.variables head.clauses tally (said word.entry) }
{
    let place = word.place();
    let clause = tally.ended + 1;
    let Some(number) = word.number().map_err(|fault| (fault, clause))? else {
        return Ok(None);
    };
    Ok(Some(take_number(tally, head, place, number)?))
}

// A text that ends here, at the place given, has exactly so many clauses as its head says, and the last one is ended.
fn finish(tally: Tally, head: Head, place: usize) -> Result<Tally, ClauseFault>
    requires { tally.ended ≤ 1024 }
    ensures { result ≡ finished head.clauses place tally }
{
    if tally.begun || tally.ended != head.clauses {
        return Err(ClauseFault::Rule {
            refusal: Check::ClauseCount.at(place),
            clause: tally.ended + 1,
        });
    }
    Ok(tally)
}

// The tally of the words behind a text's head, or the first fault.
pub(crate) fn check_clauses(text: &[u8], head: Head) -> Result<Tally, ClauseFault>
    requires { head.clauses ≤ 1024 }
    ensures { result ≡ clauses_from head.variables head.clauses (length text.now) no_words (tokens head.end (drop head.end text.now)) }
{
    let mut reader = Reader::at(text, head.end);
    let mut tally = Tally::new();
    while let Some(next) = take_word(tally, head, reader.next_word())? {
        tally = next;
    }
    finish(tally, head, text.len())
}

// Writes the numbers from a place of the text on to the front of the words table.
pub(crate) fn fill(text: &[u8], from: usize, words: &mut [i32])
    requires { length (numbers_of (tokens from (drop from text.now))) ≤ length words.old }
    ensures { words.new ≡ numbers_of (tokens from (drop from text.now)) ++ drop (length (numbers_of (tokens from (drop from text.now)))) words.old }
{
    let mut reader = Reader::at(text, from);
    for place in words.iter_mut() {
        let Ok(Some(number)) = reader.next_word().number() else {
            return;
        };
        *place = number;
    }
}
