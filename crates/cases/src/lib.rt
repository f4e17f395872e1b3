// Examples that were worked out by hand, computed from the definitions that the contracts cite.
#![tactic(auto)]

ghost use Rattle.cases.specs.Examples.{Worked};

pub fn examples_hold()
    ensures { Worked }
{}
