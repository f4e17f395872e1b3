// What holds of every search, by the definitions alone.
ghost use Rattle.state.specs.Examples.{Worked};
ghost use Rattle.state.specs.Theorems.{Laws as TheLaws};

// How flips, scores, costs and weights hang together.
pub fn laws_hold()
    ensures { TheLaws }
{}

// Examples that were worked out by hand.
pub fn examples_hold()
    ensures { Worked }
{}
