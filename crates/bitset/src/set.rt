// A set of numbers below 1,024, with a bit for each. Its members are met in rising order, and what is not in it is passed over 64 at a time.
ghost use Rattle.std.specs.Prelude.{◌≡◌, length};
ghost use Rattle.formula.specs.Occurrences.{passing};
ghost use Rattle.bitset.specs.Bits.{has};

use crate::lowest::lowest;

// The words have 64 bits each; the number is that of the members.
#[derive(Drop)]
pub struct BitSet {
    words: [u64; 16],
    number: u16,
    ghost size: { length words ≡ 16 },
    ghost counted: { number ≡ length (passing (has words) 1024) },
}

impl BitSet {
    ghost use Rattle.std.specs.Prelude.{ℕ, ◌<◌, ◌≤◌, ◌==◌, true, false, MatchOption, slice_index};
    ghost use Rattle.bitset.specs.Sets.{member, Empty, Assigned, First};

    // The set with no member.
    pub fn new() -> BitSet
        ensures { Empty result }
    {
        BitSet {
            words: [0; 16],
            number: 0,
        }
    }

    // How many members there are.
    pub fn len(&self) -> usize
        ensures { result ≡ length (passing (member self.now) 1024) }
    {
        self.number as usize
    }

    // Whether there is no member.
    pub fn is_empty(&self) -> bool
        ensures { result ≡ (length (passing (member self.now) 1024) == 0) }
    {
        self.number == 0
    }

    // Whether a number is in the set.
    fn contains(&self, k: usize) -> bool
        requires { k < 1024 }
        ensures { result ≡ member self.now k }
    {
        (self.words[k / 64] >> (k % 64)) & 1 == 1
    }

    // Puts a number in, or takes it out.
    pub fn assign(&mut self, k: usize, present: bool)
        requires { k < 1024 }
        ensures { Assigned k present self.old self.new }
    {
        if self.contains(k) != present {
            self.words[k / 64] ^= 1 << (k % 64);
            if present {
                self.number += 1;
            } else {
                self.number -= 1;
            }
        }
    }

    // The least member that is not below `from`, or none.
    pub fn first_from(&self, from: usize) -> Option<usize>
        requires { from ≤ 1024 }
        ensures { MatchOption result ((j : ℕ) → from ≤ j → member self.now j ≡ false) (λ k. First (member self.now) from k) }
    {
        let first = from / 64;
        let mut low = from % 64;
        for (i, word) in self.words[first..].iter().enumerate() {
            if let Some(place) = lowest(*word, low) {
                return Some((first + i) * 64 + place);
            }
            low = 0;
        }
        None
    }

    // The least member that is not below `from`, where there is one.
    fn present_from(&self, from: usize) -> usize
        requires inside { from ≤ 1024 }
        requires left { length (passing (member self.now) from) < length (passing (member self.now) 1024) }
        ensures { First (member self.now) from result }
    {
        self.first_from(from).unwrap()
    }

    // The member at a place of the rising list of all.
    pub fn nth(&self, place: usize) -> usize
        requires { place < length (passing (member self.now) 1024) }
        ensures is { result ≡ slice_index (passing (member self.now) 1024) place }
        ensures inside { member self.now result ≡ true }
    {
        let mut at = 0;
        for _ in 0..place {
            at = self.present_from(at) + 1;
        }
        self.present_from(at)
    }
}
