// The reader's walk: one word after another.
ghost use Rattle.std.specs.Prelude.{◌≡◌, ◌+◌, min, length, drop};
ghost use Rattle.words.specs.Words.{white, after, said, word_from, place_of, said_number};
ghost use Rattle.words.specs.Readers.{Met};

use crate::faults::WordFault;
use crate::number::{is_number, value};
use crate::word::{Reader, Word};

// Tab, line end, carriage return and space. By `any`, of which LLVM makes one test of a bit; of a pattern it makes a comparison for each.
fn is_white(b: u8) -> bool
    ensures { result ≡ white b }
{
    b"\t\n\r ".iter().any(|w| *w == b)
}

impl<'a> Reader<'a> {
    // A reader that goes on at a place of the text, or at its end where the text is shorter.
    pub fn at(text: &'a [u8], pos: usize) -> Reader<'a>
        ensures { (result.pos ≡ min pos (length text.now)) × (result.text ≡ text.entry) }
    {
        Reader {
            text,
            pos: pos.min(text.len()),
        }
    }

    // A reader at the text's first byte.
    pub fn new(text: &'a [u8]) -> Reader<'a>
        ensures { (result.pos ≡ 0) × (result.text ≡ text.entry) }
    {
        Reader::at(text, 0)
    }

    // The next word, which the reader then stands behind. Inlined, since a text is read word by word, twice.
    #[inline(always)]
    pub fn next_word(&mut self) -> Word<'a>
        ensures word { said result ≡ word_from self.old.text.now self.old.pos }
        ensures text { self.new.text ≡ self.old.text }
        ensures pos { self.new.pos ≡ self.old.pos + after (drop self.old.pos self.old.text.now) }
        ensures met { Met self.old (said result) self.new }
    {
        let text = self.text;
        let skipped = text[self.pos..]
            .iter()
            .take_while(|b| is_white(**b))
            .count();
        let start = self.pos + skipped;
        let letters = text[start..].iter().take_while(|b| !is_white(**b)).count();
        let end = start + letters;
        self.pos = end;
        if start == end {
            return Word::End(start);
        }
        let bytes = &text[start..end];
        if is_number(bytes) {
            Word::Number(bytes, start)
        } else {
            Word::Name(bytes, start)
        }
    }
}

impl<'a> Word<'a> {
    // Where the word stands in the text.
    pub fn place(&self) -> usize
        ensures { result ≡ place_of (said self.now) }
    {
        match self {
            Word::Number(_, place) | Word::Name(_, place) | Word::End(place) => *place,
        }
    }

    // The number that the word is, or nothing at the text's end.
    pub fn number(self) -> Result<Option<i32>, WordFault>
        ensures { result ≡ said_number (said self.entry) }
    {
        match self {
            Word::Number(bytes, place) => Ok(Some(value(bytes, place)?)),
            Word::Name(_, place) => Err(WordFault::NotANumber(place)),
            Word::End(_) => Ok(None),
        }
    }
}
