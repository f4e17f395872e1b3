// The faults of the reader's layers, each with the fault of the layer below inside it.
ghost use Rattle.std.specs.Prelude.{◌≡◌};
ghost use Rattle.words.specs.Faults.{word_refusal, clause_refusal, head_refusal, beside_clause, head_from_word, head_from_clause};

use cnf::refusal::{Check, Refusal};

// A word that is no number, or one whose magnitude is above 99,999, at its place.
#[derive(Clone, Copy, Debug, PartialEq, Eq)]
pub enum WordFault {
    NotANumber(usize),
    TooLarge(usize),
}

// The fault of a word, or of what the word says, beside the number of the clause in which it stands.
#[derive(Clone, Copy, Debug, PartialEq, Eq)]
pub enum ClauseFault {
    Word { word: WordFault, clause: usize },
    Rule { refusal: Refusal, clause: usize },
}

// A fault of the text's head or of the whole text, or one that comes from below.
#[derive(Clone, Copy, Debug, PartialEq, Eq)]
pub enum HeadFault {
    Head(Refusal),
    Word(WordFault),
    Clause(ClauseFault),
}

impl From<(WordFault, usize)> for ClauseFault {
    ghost from_gives = { λ w c. c ≡ beside_clause w };

    fn from(beside: (WordFault, usize)) -> ClauseFault {
        let (word, clause) = beside;
        ClauseFault::Word { word, clause }
    }
}

impl From<WordFault> for HeadFault {
    ghost from_gives = { λ w h. h ≡ head_from_word w };

    fn from(fault: WordFault) -> HeadFault {
        HeadFault::Word(fault)
    }
}

impl From<ClauseFault> for HeadFault {
    ghost from_gives = { λ c h. h ≡ head_from_clause c };

    fn from(fault: ClauseFault) -> HeadFault {
        HeadFault::Clause(fault)
    }
}

impl From<WordFault> for Refusal {
    ghost from_gives = { λ w r. r ≡ word_refusal w };

    fn from(fault: WordFault) -> Refusal {
        match fault {
            WordFault::NotANumber(place) => Check::NumberForm.at(place),
            WordFault::TooLarge(place) => Check::NumberSize.at(place),
        }
    }
}

impl From<ClauseFault> for Refusal {
    ghost from_gives = { λ c r. r ≡ clause_refusal c };

    fn from(fault: ClauseFault) -> Refusal {
        match fault {
            ClauseFault::Word { word, clause: _ } => word.into(),
            ClauseFault::Rule { refusal, clause: _ } => refusal,
        }
    }
}

impl From<HeadFault> for Refusal {
    ghost from_gives = { λ h r. r ≡ head_refusal h };

    fn from(fault: HeadFault) -> Refusal {
        match fault {
            HeadFault::Head(refusal) => refusal,
            HeadFault::Word(word) => word.into(),
            HeadFault::Clause(clause) => clause.into(),
        }
    }
}
