// The pressure-stabilizing buckling coefficient (source 003, Eq 13-50).
ghost use Rattle.std.specs.Prelude.{◌≡◌, ◌≤◌, min};
ghost use Rattle.fields.specs.Range.{In};
ghost use Rattle.buckling.specs.Bounds.{most_coefficient};
ghost use Rattle.buckling.specs.Coefficient.{argument_of, Entry, last_place, coefficient_of};

use crate::chart::entry;
use crate::shell::Shell;

// The last place of the chart.
const LAST: u64 = 640;

// The argument, (P / E) (R / t)², in ten-thousandths, rounded down. The numerator has 72 bits; the quotient fits 64, and so is cast.
#[tactic(auto, using(crate::proofs::CoefficientLaws::argument_laws))]
pub fn argument(level: u32, gravity: u32, shell: Shell) -> u64
    requires level_in { In 2 level }
    requires gravity_in { In 20 gravity }
    ensures { result ≡ argument_of level gravity shell.diameter shell.net }
{
    let d = u64::from(shell.diameter);
    let t = u64::from(shell.net);
    let pressure = 433 * u64::from(level) * u64::from(gravity);
    let den = u128::from(139200000000 * t * t);
    exact::down(exact::product(pressure, d * d), den) as u64
}

// The coefficient for an argument, both as above; past the chart it is the last entry, so the place is
// cast whole.
#[tactic(auto, using(crate::proofs::CoefficientLaws::coefficient_laws))]
pub fn coefficient(argument: u64) -> u32
    ensures value { result ≡ coefficient_of argument }
    ensures entry { Entry (min argument last_place) result }
    ensures upper_bound { result ≤ most_coefficient }
{
    entry(argument.min(LAST) as usize)
}
