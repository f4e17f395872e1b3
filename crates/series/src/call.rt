// A call of a series, in plain numbers: what it needs is lent beside it.
ghost use Rattle.std.specs.Prelude.{◌≡◌, Some, None, MatchResult};
ghost use Rattle.cnf.specs.Refusals.{refused};
ghost use Rattle.series.specs.Series.{lent as part_lent};

use cnf::refusal::{Check, Refusal};
use engine::answers::{Outcome, Stepped};

// The part of lent memory from one place up to another.
#[derive(Clone, Copy, Debug, PartialEq, Eq)]
pub struct Part {
    pub from: usize,
    pub to: usize,
}

impl Part {
    // The part of what is lent, or the refusal of a part that lies outside.
    pub fn of<T>(self, lent: &[T]) -> Result<&[T], Refusal>
        ensures { MatchResult result (λ xs. part_lent lent.now self ≡ Some xs.now) (λ r. (part_lent lent.now self ≡ None) × (r ≡ refused Check.InRange 0)) }
    {
        lent.get(self.from..self.to).ok_or(Check::InRange.at(0))
    }
}

// What the calls of a series are lent: the words and the starts that loads and restarts name parts of, and the policies that steps and runs name places of.
#[derive_where(Clone, Copy)]
pub struct Lent<'a, P> {
    pub words: &'a [i32],
    pub starts: &'a [u8],
    pub policies: &'a [P],
}

#[derive(Clone, Copy, Debug, PartialEq, Eq)]
pub enum Question {
    Value(usize),
    Score(usize),
    Stamp(usize),
    Changed(usize),
    Weight(usize),
    Cost,
    Tick,
    Unsatisfied,
    UnsatisfiedAt(usize),
}

// A load and a restart name parts of the lent words and starts, a step and a run places of the lent policies and sources.
// Stays (no plainer): calls and questions as data, matched where they are made. The laws speak of every series, so that a series has to be a value, and a closure is none that a clause could read.
#[derive(Clone, Copy, Debug, PartialEq, Eq)]
pub enum Call {
    Load {
        variables: usize,
        words: Part,
        start: Part,
    },
    Restart {
        start: Part,
    },
    Flip {
        variable: usize,
    },
    Weigh,
    Step {
        policy: usize,
        source: usize,
    },
    Run {
        policy: usize,
        source: usize,
        budget: usize,
    },
    Ask {
        question: Question,
    },
}

#[derive(Clone, Copy, Debug, PartialEq, Eq)]
pub enum Answer {
    Done,
    Stepped(Stepped),
    Ran(Outcome, usize, usize),
    Flag(bool),
    Score(i32),
    Number(u32),
    Count(usize),
}
