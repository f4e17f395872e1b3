// The checks of a table and of a start, and the first clause that a start leaves unsatisfied.
// Stays (rule): a table is handed over as the number of its variables and a lent slice of words, and a start as a byte for each variable.
ghost use Rattle.std.specs.Prelude.{◌≡◌, ◌<◌, [], length, IfSome, MatchOption, nat_lt};
ghost use Rattle.std.specs.List.{position_from};
ghost use Rattle.cnf.specs.Tables.{is_zero, values_of, holds, clauses_of, first_unsatisfied, Parted};
ghost use Rattle.cnf.specs.Scans.{table_checked, start_checked, judged};
ghost use Rattle.cnf.specs.Promises.{AcceptsLegalTables, NamesFirstBroken};

use crate::refusal::{Check, Refusal};
use crate::tally::{MOST_VARIABLES, Tally};

// The number of clauses of a table over so many variables.
pub fn check_table(variables: usize, words: &[i32]) -> Result<usize, Refusal>
    ensures value { result ≡ table_checked variables words.now }
    ensures accepts { AcceptsLegalTables variables words.now }
{
    if variables < 1 || variables > MOST_VARIABLES {
        return Err(Check::Limits.at(0));
    }
    let mut tally = Tally::new();
    for (i, word) in words.iter().enumerate() {
        tally = tally.word(variables, *word).map_err(|check| check.at(i))?;
    }
    tally.close(words.len())
}

// The place of the first byte that is neither 0 nor 1.
fn first_bad(start: &[u8]) -> Option<usize>
    ensures { result ≡ position_from (nat_lt 1) 0 start.now }
{
    start.iter().position(|value| *value > 1)
}

// A start has a byte for each variable, and each is 0 or 1.
pub fn check_start(variables: usize, start: &[u8]) -> Result<(), Refusal>
    ensures { result ≡ start_checked variables start.now }
{
    if start.len() != variables {
        return Err(Check::StartValues.at(start.len()));
    }
    match first_bad(start) {
        Some(place) => Err(Check::StartValues.at(place)),
        None => Ok(()),
    }
}

// The value that a start gives to the variable of a place: true for the byte 1.
fn value_at(start: &[u8], place: usize) -> bool
    ensures { result ≡ values_of start.now place }
{
    start.get(place).is_some_and(|value| *value == 1)
}

// Whether a literal is true under the values of a start.
fn literal_holds(word: i32, start: &[u8]) -> bool
    ensures { result ≡ holds (values_of start.now) word }
{
    let variable = word.unsigned_abs() as usize;
    if variable == 0 {
        return false;
    }
    let value = value_at(start, variable - 1);
    if word > 0 { value } else { !value }
}

// The place of the first 0.
fn first_zero(words: &[i32]) -> Option<usize>
    ensures place { result ≡ position_from is_zero 0 words.now }
    ensures inside { IfSome result (λ i. i < length words.now) }
{
    words.iter().position(|word| *word == 0)
}

// The literals of the first clause, and the words behind its 0; none where no clause is ended.
pub fn first_clause(words: &[i32]) -> Option<(&[i32], &[i32])>
    ensures { MatchOption result (clauses_of words.now ≡ []) (λ p. Parted words.now p.0.now p.1.now) }
{
    let end = first_zero(words)?;
    Some((&words[..end], &words[end + 1..]))
}

// The number of the first clause with no true literal.
fn first_unsatisfied(words: &[i32], start: &[u8]) -> Option<usize>
    ensures { result ≡ first_unsatisfied (values_of start.now) 1 (clauses_of words.now) }
{
    let mut clause = 0;
    let mut left = words;
    let mut broken = None;
    // Stays (rule): the clauses are left and gone on with by a label.
    'clauses: while let Some((literals, behind)) = first_clause(left) {
        clause += 1;
        left = behind;
        for literal in literals {
            if literal_holds(*literal, start) {
                continue 'clauses;
            }
        }
        broken = Some(clause);
        break 'clauses;
    }
    broken
}

// The first clause of a table that a start leaves unsatisfied, counted from 1, or none.
pub fn check(variables: usize, words: &[i32], start: &[u8]) -> Result<Option<usize>, Refusal>
    ensures value { result ≡ judged variables words.now start.now }
    ensures names { NamesFirstBroken (values_of start.now) (clauses_of words.now) }
{
    check_table(variables, words)?;
    check_start(variables, start)?;
    Ok(first_unsatisfied(words, start))
}
