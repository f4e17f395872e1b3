// The lowest bit of a word.
ghost use Rattle.std.specs.Prelude.{◌≡◌, ℕ, ◌<◌, ◌≤◌, false, MatchOption};
ghost use Rattle.bitset.specs.Bits.{bit_at};
ghost use Rattle.bitset.specs.Sets.{LowestAt};

// The least place at or above `from` at which the word has a bit, or none.
pub(crate) fn lowest(word: u64, from: usize) -> Option<usize>
    requires { from < 64 }
    ensures { MatchOption result ((j : ℕ) → from ≤ j → j < 64 → bit_at word j ≡ false) (λ k. LowestAt word from k) }
{
    let zeros = (word >> from).trailing_zeros() as usize;
    if zeros < 64 - from {
        Some(from + zeros)
    } else {
        None
    }
}
