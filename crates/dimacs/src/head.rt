// The head of a text: comment lines, then the problem line.
ghost use Rattle.std.specs.Prelude.{◌≡◌, ◌+◌, ◌<◌, ◌≤◌, true, false, not, length, drop, slice_index};
ghost use Rattle.words.specs.Words.{said, tokens, is_word};
ghost use Rattle.dimacs.specs.Heads.{head_from, line_end, said_p, said_cnf, problem_line, problem_of, said_pair, limited, up_to, head_of, head_read};

use cnf::refusal::Check;
use cnf::tally::{MOST_CLAUSES, MOST_VARIABLES};
use words::faults::{HeadFault, WordFault};
use words::word::{Reader, Word};

// The most bytes that a text may have.
pub const MOST_BYTES: usize = 65_535;

// What the problem line says, and where it ends.
#[derive(Clone, Copy)]
pub struct Head {
    pub variables: usize,
    pub clauses: usize,
    pub end: usize,
}

// Where the line at `from` ends: at its byte 10 or at the text's end.
fn line_end(text: &[u8], from: usize) -> usize
    requires { from ≤ length text.now }
    ensures value { result ≡ line_end text.now from }
    ensures within { result ≤ length text.now }
    ensures stops { result < length text.now → slice_index text.now result ≡ 10 }
{
    from + text[from..].iter().take_while(|b| **b != b'\n').count()
}

// Where the line after the comment at `from` begins, or the text's end.
fn next_line(text: &[u8], from: usize) -> usize
    requires { (from < length text.now) × (slice_index text.now from ≡ 99) }
    ensures beyond { from < result }
    ensures within { result ≤ length text.now }
    ensures head { head_from false result (drop result text.now) ≡ head_from false from (drop from text.now) }
{
    let end = line_end(text, from);
    if end < text.len() { end + 1 } else { end }
}

// Where the first line that is no comment begins.
fn head_start(text: &[u8]) -> usize
    ensures value { result ≡ head_from false 0 text.now }
    ensures within { result ≤ length text.now }
{
    let mut at = 0;
    while let Some(b'c') = text.get(at) {
        at = next_line(text, at);
    }
    at
}

// Whether the word is a `p` at the place given.
fn is_problem(word: &Word, place: usize) -> bool
    ensures { result ≡ said_p place (said word.now) }
{
    matches!(word, Word::Number(b"p", at) | Word::Name(b"p", at) if *at == place)
}

// Whether the word is `cnf`.
fn is_form(word: &Word) -> bool
    ensures { result ≡ said_cnf (said word.now) }
{
    matches!(word, Word::Number(b"cnf", _) | Word::Name(b"cnf", _))
}

fn is_end(word: &Word) -> bool
    ensures { result ≡ not (is_word (said word.now)) }
{
    matches!(word, Word::End(_))
}

// Whether these are the words of a problem line that begins at `start`, and what follows them is its end.
fn is_problem_line(
    start: usize,
    problem: &Word,
    form: &Word,
    variables: &Word,
    clauses: &Word,
    more: &Word,
) -> bool
    ensures { result ≡ problem_line start (said problem.now) (said form.now) (said variables.now) (said clauses.now) (said more.now) }
{
    is_problem(problem, start)
        && is_form(form)
        && !is_end(variables)
        && !is_end(clauses)
        && is_end(more)
}

// The two numbers of the problem line that begins at `start` and is the last line of the bytes.
fn problem_words<'a>(line: &'a [u8], start: usize) -> Option<(Word<'a>, Word<'a>)>
    ensures { said_pair result ≡ problem_of start (tokens start (drop start line.now)) }
{
    let mut reader = Reader::at(line, start);
    let problem = reader.next_word();
    let form = reader.next_word();
    let variables = reader.next_word();
    let clauses = reader.next_word();
    let more = reader.next_word();
    if !is_problem_line(start, &problem, &form, &variables, &clauses, &more) {
        return None;
    }
    Some((variables, clauses))
}

// A number of the problem line, 1 to `most`.
fn limit(word: Word, most: usize) -> Result<usize, HeadFault>
    ensures { result ≡ limited most (said word.entry) }
{
    let place = word.place();
    let number = word.number()?.ok_or(WordFault::NotANumber(place))?;
    up_to(number, most, place)
}

fn up_to(n: i32, most: usize, place: usize) -> Result<usize, HeadFault>
    ensures { result ≡ up_to most place n }
{
    match usize::try_from(n) {
        Ok(number) if number >= 1 && number <= most => Ok(number),
        _ => Err(HeadFault::Head(Check::Limits.at(place))),
    }
}

// The head whose problem line begins at `start`, ends at `end` and has these two numbers, if it is one.
fn head_of(words: Option<(Word, Word)>, start: usize, end: usize) -> Result<Head, HeadFault>
    ensures { result ≡ head_of start end (said_pair words.entry) }
{
    let Some((variables, clauses)) = words else {
        return Err(HeadFault::Head(Check::ProblemLine.at(start)));
    };
    let variables = limit(variables, MOST_VARIABLES)?;
    let clauses = limit(clauses, MOST_CLAUSES)?;
    Ok(Head {
        variables,
        clauses,
        end,
    })
}

// The head of a text, or its first fault.
pub(crate) fn read_head(text: &[u8]) -> Result<Head, HeadFault>
    ensures { result ≡ head_read text.now }
{
    if text.len() > MOST_BYTES {
        return Err(HeadFault::Head(Check::TextLength.at(0)));
    }
    let start = head_start(text);
    let end = line_end(text, start);
    head_of(problem_words(&text[..end], start), start, end)
}
