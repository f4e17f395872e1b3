// Parts of a list.
ghost use Rattle.std.specs.Prelude.{◌≡◌, ◌≤◌, length};
ghost use Rattle.formula.specs.Spans.{part_of};

// From `start` on and before `end`.
// Stays (rule): lists of any lengths lie one behind the other in memory of a fixed size, so each is marked by two places.
#[derive(Clone, Copy, Default)]
pub struct Span {
    pub start: u16,
    pub end: u16,
}

impl Span {
    // The part of the list.
    pub(crate) fn part_of<T>(self, xs: &[T]) -> &[T]
        requires { (self.start ≤ self.end) × (self.end ≤ length xs.now) }
        ensures { result.now ≡ part_of self xs.now }
    {
        &xs[self.start as usize..self.end as usize]
    }
}
