// Numbers from a seed.
ghost use Rattle.std.specs.Prelude.{◌≡◌, IfOk};
ghost use Rattle.policy.specs.Generators.{generator, generator_lawful, seeded, Run};

use crate::source::Source;
use cnf::refusal::{Check, Refusal};

// The minimal standard generator of pseudorandom numbers, always ready.
#[derive(Drop)]
pub struct Generator {
    // The number that was given last, at first the seed.
    state: u32,
}

impl Generator {
    // The generator that starts at the seed, which must be 1 to 2,147,483,646.
    pub fn new(seed: u32) -> Result<Generator, Refusal>
        ensures start { result ≡ seeded seed }
        ensures run { IfOk result (Run seed) }
    {
        if seed < 1 || seed > 2_147_483_646 {
            return Err(Check::SeedRange.at(0));
        }
        Ok(Generator { state: seed })
    }
}

impl Source for Generator {
    ghost meaning = { generator };

    ghost lawful = { generator_lawful };

    fn ready(&self) -> bool {
        true
    }

    fn draw(&mut self) -> u32 {
        self.state = (16_807 * self.state as u64 % 2_147_483_647) as u32;
        self.state
    }
}
