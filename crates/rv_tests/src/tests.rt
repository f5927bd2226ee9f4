mod instructions;
mod memories;
mod sources;
mod steps;
mod texts;

ghost use Rattle.std.specs.Prelude.{◌<◌};

use rv_word::Reg;

/// The register of a number below 32, so that tests can write `x(10)`.
fn x(number: u8) -> Reg
    requires { number < 32 }
{
    match Reg::new(number) {
        Some(reg) => reg,
        None => unreachable!(),
    }
}
