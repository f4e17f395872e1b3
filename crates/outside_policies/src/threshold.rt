// A policy that holds a reference.
ghost use Rattle.std.specs.Prelude.{◌≡◌};
ghost use Rattle.outside_policies.specs.Threshold.{threshold, threshold_lawful};

use policy::admission::{Level, Policy, View};

// Changed variables first, then those whose score is at least a lent number.
#[derive(Clone, Copy)]
pub struct Threshold<'a> {
    least: &'a u32,
}

impl<'a> Threshold<'a> {
    // The policy by this least score.
    pub fn new(least: &'a u32) -> Threshold<'a>
        ensures { result ≡ record { least = least.entry } }
    {
        Threshold { least }
    }
}

impl<'a> Policy for Threshold<'a> {
    ghost level = { threshold };

    ghost lawful = { threshold_lawful };

    fn level(&self, view: View) -> Option<Level> {
        if view.score <= 0 {
            None
        } else if view.changed {
            Some(Level::First)
        } else if view.score as u32 >= *self.least {
            Some(Level::Second)
        } else {
            None
        }
    }
}
