// The words of a formula, as they were given.
ghost use Rattle.std.specs.Prelude.{◌≡◌, ◌≤◌, [], length};
ghost use Rattle.formula.specs.Formulas.{words_of};

use arrayvec::ArrayVec;

#[derive(Drop)]
pub struct Given {
    words: ArrayVec<i32, 5120>,
}

impl Given {
    // No word yet.
    pub fn new() -> Given
        ensures { words_of result ≡ [] }
    {
        Given {
            words: ArrayVec::new(),
        }
    }

    // Takes the words over.
    pub fn copy(&mut self, words: &[i32])
        requires { length words.now ≤ 5120 }
        ensures { words_of self.new ≡ words.now }
    {
        self.words.clear();
        self.words.try_extend_from_slice(words).unwrap();
    }
}
