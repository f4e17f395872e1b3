// The rows that a search keeps of its variables and clauses.
ghost use Rattle.std.specs.Prelude.{◌≡◌, length};

// What is kept of a variable.
#[derive(Clone, Copy, Default)]
pub struct Row {
    pub value: bool,
    pub score: i64,
    pub stamp: u32,
    pub changed: bool,
}

// What is kept of a clause: its weight and how many of its different literals are true.
#[derive(Clone, Copy, Default)]
pub struct ClauseRow {
    pub weight: u32,
    pub count: u16,
}

// Stays (rule): there are 256 rows of variables and 1,024 of clauses, whatever the formula has.
// Stays (no plainer): that a table is sound is a clause, and no fact of the type. It speaks of the formula, which the search holds beside the table, and within a flip it does not hold.
#[derive(Drop)]
pub struct Table {
    pub rows: [Row; 256],
    pub clauses: [ClauseRow; 1024],
    pub cost: u64,
    // The sum of all weights.
    pub total: u64,
    pub tick: u32,
    ghost size: { length rows ≡ 256 },
    ghost clause_size: { length clauses ≡ 1024 },
}

impl Table {
    // Rows that are all 0.
    pub fn new() -> Table
        ensures cost { result.cost ≡ 0 }
        ensures total { result.total ≡ 0 }
        ensures tick { result.tick ≡ 0 }
    {
        Table {
            rows: [Row::default(); 256],
            clauses: [ClauseRow::default(); 1024],
            cost: 0,
            total: 0,
            tick: 0,
        }
    }
}
