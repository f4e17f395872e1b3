// What the engine answers.

// Stays (no plainer): the mode is a number, the level's or 0 for a dive. The definitions of moves take any level's number, and each clause would have to turn an optional level into it.
// A step that moved: the level by which the variable was picked, or 0 for a dive, the variable, its score just before the flip, and the cost after it.
#[derive(Clone, Copy, Debug, Default, PartialEq, Eq)]
pub struct Move {
    pub mode: u8,
    pub variable: usize,
    pub score: i32,
    pub cost: u32,
}

// What a step came to. A dive is a step that the policy admits no variable for: it weighs, and flips a variable of an unsatisfied clause that a number is drawn for.
#[derive(Clone, Copy, Debug, PartialEq, Eq)]
pub enum Stepped {
    // Every clause is satisfied.
    Found,
    // A dive is due, and no number is ready.
    Dry,
    Moved(Move),
}

// What a run came to.
#[derive(Clone, Copy, Debug, PartialEq, Eq)]
pub enum Outcome {
    Found,
    Dry,
    // The whole budget was made, and some clause is unsatisfied.
    Unknown,
}
