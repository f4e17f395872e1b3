// One variable of a clause.
ghost use Rattle.std.specs.Prelude.{◌≡◌, ◌||◌};
ghost use Rattle.formula.specs.Entries.{trues, entry_of, named_in};

// In which signs a clause names a variable.
#[derive(Clone, Copy, Default)]
pub struct Entry {
    pub variable: u8,
    pub plain: bool,
    pub negated: bool,
}

impl Entry {
    // Whether the clause names the variable at all.
    pub(crate) fn is_named(self) -> bool
        ensures { result ≡ (self.plain || self.negated) }
    {
        self.plain || self.negated
    }

    // How many of the entry's literals are true where its variable has this value.
    pub fn true_at(self, value: bool) -> u16
        ensures { result ≡ trues value self }
    {
        (self.plain && value) as u16 + (self.negated && !value) as u16
    }
}

// In which signs the clause names the variable. By `any`, which becomes a part of the loops above: `contains` is a call for each variable of each clause.
pub fn entry_of(clause: &[i32], variable: u8) -> Entry
    ensures { result ≡ entry_of clause.now variable }
{
    let word = variable as i32 + 1;
    Entry {
        variable,
        plain: clause.iter().any(|w| *w == word),
        negated: clause.iter().any(|w| *w == -word),
    }
}

// Whether some entry is of the variable.
pub fn names(es: &[Entry], variable: u8) -> bool
    ensures { result ≡ named_in es.now variable }
{
    es.iter().any(|e| e.variable == variable)
}
