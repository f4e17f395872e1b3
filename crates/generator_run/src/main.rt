// Prints the first three numbers from seed 1, and then the 10,000th.
#![tactic(auto)]

ghost use Rattle.std.specs.Prelude.{◌≡◌, [], ◌∷◌, Ok};
ghost use Rattle.policy.specs.Sources.{after_draws};

use cnf::refusal::Refusal;
use policy::generator::Generator;
use policy::source::Source;
use std::io;

// The number that comes after some others.
fn number_after<S: Source>(source: &mut S, others: u32) -> u32
    ensures { result ≡ S.Source.meaning.number (after_draws S.Source.meaning others source.old) }
{
    for _i in 0..others {
        let _ = source.draw();
    }
    source.draw()
}

fn first_three() -> Result<[u32; 3], Refusal>
    ensures { result ≡ Ok (16807 ∷ 282475249 ∷ 1622650073 ∷ []) }
{
    let mut generator = Generator::new(1)?;
    let first = generator.draw();
    let second = generator.draw();
    let third = generator.draw();
    Ok([first, second, third])
}

fn ten_thousandth() -> Result<u32, Refusal>
    ensures { result ≡ Ok 1043618065 }
{
    let mut generator = Generator::new(1)?;
    Ok(number_after(&mut generator, 9_999))
}

fn main(rt: HostRuntime) -> io::Result<()> {
    if let Ok(numbers) = first_three() {
        let [first, second, third] = numbers;
        println!(rt; "{first} {second} {third}")?;
    }
    if let Ok(number) = ten_thousandth() {
        println!(rt; "{number}")?;
    }
    Ok(())
}
