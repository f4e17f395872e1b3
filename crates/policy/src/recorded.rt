// Numbers from a record.
ghost use Rattle.std.specs.Prelude.{◌≡◌};
ghost use Rattle.policy.specs.Recordings.{recorded, recorded_lawful, WordsInOrder};

use crate::source::Source;

// The words of a lent list in order, ready while words remain.
// Stays (no plainer): a place beside the list, and not the rest of it. What a source holds after a draw is told by an equation, and the rest would be another reference than the one that was lent.
#[derive(Drop)]
pub struct Recorded<'a> {
    words: &'a [u32],
    // How many words were given.
    at: usize,
}

impl<'a> Recorded<'a> {
    // The source that gives the words from the first on.
    pub fn new(words: &'a [u32]) -> Recorded<'a>
        ensures { result ≡ record { words = words.entry; at = 0 } }
    {
        Recorded { words, at: 0 }
    }
}

impl<'a> Source for Recorded<'a> {
    ghost meaning = { recorded };

    ghost lawful = { recorded_lawful };

    fn ready(&self) -> bool {
        self.at < self.words.len()
    }

    fn draw(&mut self) -> u32 {
        match self.words.get(self.at) {
            Some(word) => {
                self.at += 1;
                *word
            }
            None => 0,
        }
    }
}

// The theorem that the numbers of a recorded source are its words in order.
pub fn words_in_order()
    ensures { WordsInOrder }
{}
