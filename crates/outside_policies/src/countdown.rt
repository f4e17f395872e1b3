// A source that runs out.
ghost use Rattle.std.specs.Prelude.{◌≡◌};
ghost use Rattle.outside_policies.specs.Countdown.{countdown, countdown_lawful};

use policy::source::Source;

// Counts down to 1.
#[derive(Drop)]
pub struct Countdown {
    left: u32,
}

impl Countdown {
    // The source that gives `from` first.
    pub fn new(from: u32) -> Countdown
        ensures { result ≡ record { left = from } }
    {
        Countdown { left: from }
    }
}

impl Source for Countdown {
    ghost meaning = { countdown };

    ghost lawful = { countdown_lawful };

    fn ready(&self) -> bool {
        self.left > 0
    }

    fn draw(&mut self) -> u32 {
        let number = self.left;
        self.left = number.saturating_sub(1);
        number
    }
}
