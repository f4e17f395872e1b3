// Admission policies: which variables may be flipped greedily, and which of them go first.
ghost use Rattle.std.specs.Prelude.{◌≡◌};
ghost use Rattle.policy.specs.Levels.{Levels, LawfulLevels};
ghost use Rattle.policy.specs.Numbers.{level_number};
ghost use Rattle.policy.specs.Policies.{cca, descent};
ghost use Rattle.policy.specs.PolicyLaws.{cca_lawful, descent_lawful};

// How soon an admitted variable goes: one of a lesser level goes before one of a greater. The numbers are the levels' own.
#[derive(Clone, Copy, Debug, PartialEq, Eq, PartialOrd, Ord)]
pub enum Level {
    First = 1,
    Second = 2,
}

// What a policy is shown of a variable: its score and mark, and the total weight and the number of the clauses.
#[derive(Clone, Copy, Debug, PartialEq, Eq)]
pub struct View {
    pub score: i32,
    pub changed: bool,
    pub total: u32,
    pub clauses: u32,
}

// Gives each variable that it admits a level.
pub trait Policy {
    // The levels that a policy gives, by what it holds, as numbers: 0 where it does not admit the variable.
    ghost level: { Self → Levels };

    // What every policy keeps to.
    ghost lawful: { (p : Self) → LawfulLevels (level p) };

    // The level of a variable, or none where it is not admitted.
    fn level(&self, view: View) -> Option<Level>
        ensures { level_number result ≡ level self.now view.score view.changed view.total view.clauses };
}

// Configuration checking with aspiration: a changed variable goes first, then one whose score is above the mean weight of
// a clause.
#[derive(Clone, Copy)]
pub struct Cca;

impl Policy for Cca {
    ghost level = { λ _. cca };

    ghost lawful = { λ _. cca_lawful };

    fn level(&self, view: View) -> Option<Level> {
        if view.changed && view.score > 0 {
            Some(Level::First)
        } else if view.score > 0 && view.score as u64 * view.clauses as u64 > view.total as u64 {
            Some(Level::Second)
        } else {
            None
        }
    }
}

// Every variable with a score above 0, its mark aside.
#[derive(Clone, Copy)]
pub struct Descent;

impl Policy for Descent {
    ghost level = { λ _. descent };

    ghost lawful = { λ _. descent_lawful };

    fn level(&self, view: View) -> Option<Level> {
        (view.score > 0).then_some(Level::First)
    }
}
