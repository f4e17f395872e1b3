// Writes a rule table as text into lent bytes.
// Stays (rule): a table is handed over as the number of its variables and a lent slice of words.
ghost use Rattle.std.specs.Prelude.{◌≡◌, ◌+◌, ◌≤◌, ◌++◌, length, nat_le};
ghost use Rattle.cnf.specs.Tables.{clauses_of};
ghost use Rattle.lay.specs.Laid.{laid};
ghost use Rattle.lay.specs.Lines.{line_of};
ghost use Rattle.dimacs.specs.RoundTrips.{ReadsBack};
ghost use Rattle.dimacs.specs.Writes.{piece, words_text, head_line, table_text, written, bytes_after};

use cnf::refusal::{Check, Refusal};
use cnf::table::check_table;
use lay::pieces::{lay_bytes, lay_word, word_width};
use lay::put::Line;

// How many bytes the words take, each with one byte behind it.
fn words_width(words: &[i32]) -> usize
    requires { length words.now ≤ 5120 }
    ensures { result ≡ length (words_text words.now) }
{
    let mut width = 0;
    for word in words {
        width += word_width(*word) + 1;
    }
    width
}

// Stays (no plainer): the bytes and the place are two parameters, as in the calls of `lay`.
// Lays a word and the byte behind it, and gives the place after both.
fn lay_piece(out: &mut [u8], at: usize, word: i32) -> usize
    requires { at + length (piece word) ≤ length out.old }
    ensures end { result ≡ at + length (piece word) }
    ensures bytes { out.new ≡ laid out.old at (piece word) }
{
    let end = lay_word(out, at, word);
    if word == 0 {
        lay_bytes(out, end, b"\n")
    } else {
        lay_bytes(out, end, b" ")
    }
}

// Lays the words, and gives the place after them.
fn lay_words(out: &mut [u8], at: usize, words: &[i32]) -> usize
    requires { at + length (words_text words.now) ≤ length out.old }
    ensures end { result ≡ at + length (words_text words.now) }
    ensures bytes { out.new ≡ laid out.old at (words_text words.now) }
{
    let mut end = at;
    for word in words {
        end = lay_piece(out, end, *word);
    }
    end
}

// The problem line.
fn head_line(variables: usize, clauses: usize) -> Line<'static>
    ensures { line_of result ≡ head_line variables clauses }
{
    Line {
        before: b"p cnf ",
        first: variables,
        between: b" ",
        second: clauses,
        after: b"\n",
    }
}

// Lays a line that has room at the front of the bytes, and gives the place after it.
fn lay_line(out: &mut [u8], line: &Line) -> usize
    requires { length (line_of line.now) ≤ length out.old }
    ensures end { result ≡ length (line_of line.now) }
    ensures bytes { out.new ≡ laid out.old 0 (line_of line.now) }
{
    line.put(out, 0).unwrap()
}

// Whether a line and so many bytes behind it have room.
fn fit(line: &Line, width: usize, room: usize) -> bool
    ensures { result ≡ nat_le (length (line_of line.now) + width) room }
{
    width <= room && line.fits(room - width)
}

// Writes the problem line and a line for each clause, and gives the number of bytes.
pub fn write(variables: usize, words: &[i32], out: &mut [u8]) -> Result<usize, Refusal>
    ensures answer { result ≡ written variables words.now (length out.old) }
    ensures bytes { out.new ≡ bytes_after (written variables words.now (length out.old)) (table_text variables (clauses_of words.now)) out.old }
    ensures back { ReadsBack variables words.now }
{
    let clauses = check_table(variables, words)?;
    let head = head_line(variables, clauses);
    let width = words_width(words);
    if !fit(&head, width, out.len()) {
        return Err(Check::BytesRoom.at(0));
    }
    let at = lay_line(out, &head);
    Ok(lay_words(out, at, words))
}
