// What the entries of a clause keep of its words.
ghost use Rattle.formula.specs.Meaning.{SameMeaning};

// The entries that a clause gets satisfy and name what its words do.
pub fn entries_mean_the_words()
    ensures { SameMeaning }
{}
