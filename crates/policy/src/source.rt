// Sources of numbers.
ghost use Rattle.std.specs.Prelude.{◌≡◌};
ghost use Rattle.policy.specs.Sources.{Meaning, LawfulSource};

// Gives numbers, each by a draw; a draw with none ready gives 0 and changes nothing.
// Stays (rule): a test and a number, and not an optional number. Whether one is ready can be asked without drawing it, and a draw of none gives 0.
pub trait Source {
    // Whether a number is ready, which one, and what the source holds after giving it.
    ghost meaning: { Meaning Self };

    // What every source keeps to.
    ghost lawful: { LawfulSource meaning };

    // Whether a number is ready.
    fn ready(&self) -> bool
        ensures { result ≡ meaning.ready self.now };

    // The next number.
    fn draw(&mut self) -> u32
        ensures number { result ≡ meaning.number self.old }
        ensures after { self.new ≡ meaning.after self.old };
}
