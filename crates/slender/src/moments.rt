// The overturning moments at the bottom of the shell (source 003, Eq 13-23 and 13-29), each rounded up to a foot-pound. Heights are
// in hundredths of an inch.
ghost use Rattle.std.specs.Prelude.{◌≡◌, ◌*◌, ◌≤◌};
ghost use Rattle.slender.specs.Question.{thousandths_of_g};
ghost use Rattle.slender.specs.Moments.{impulsive_moment, convective_moment, moment_of};
ghost use Rattle.slender.specs.Bounds.{Slender, LoadIn, TankIn, AccelerationsIn, most_load_moment, most_impulsive_moment, most_convective_moment};

use crate::tank::{Accelerations, Contents, Load, SlenderTank};
use crate::weights;

// Ms. It is below 2^32 (`moment_fits`), so the cast is whole.
pub(crate) fn earthquake(tank: SlenderTank, ground: Accelerations) -> u32
    requires tank_in { TankIn tank }
    requires accelerations_in { AccelerationsIn ground }
    ensures { result ≡ moment_of tank ground }
{
    let i = impulsive(tank, ground.impulsive);
    let c = convective(tank.contents, ground.convective);
    exact::root_up(i * i + c * c) as u32
}

// The height of the impulsive weight is not rounded: it is 500 H - 94 D, in thousandths.
#[tactic(auto, using(crate::proofs::MomentLaws::moment_laws))]
fn impulsive(tank: SlenderTank, acceleration: u32) -> u64
    requires tank_in { TankIn tank }
    requires acceleration_in { acceleration ≤ thousandths_of_g.greatest }
    ensures value { result ≡ impulsive_moment tank acceleration }
    ensures upper_bound { result ≤ most_impulsive_moment }
{
    let c = tank.contents;
    let height = 500 * u64::from(c.level) - 94 * u64::from(c.diameter);
    let dead = load_moment(tank.shell) + load_moment(tank.roof);
    let sum = 1000 * dead + weights::impulsive(c) * height;
    exact::up(u64::from(acceleration) * sum, 1200000000)
}

// In pounds by hundredths of an inch.
fn load_moment(load: Load) -> u64
    requires { LoadIn load }
    ensures value { result ≡ load.weight * load.height }
    ensures upper_bound { result ≤ most_load_moment }
{
    u64::from(load.weight) * u64::from(load.height)
}

#[tactic(auto, using(crate::proofs::MomentLaws::moment_laws))]
fn convective(c: Contents, acceleration: u32) -> u64
    requires slender { Slender c }
    requires acceleration_in { acceleration ≤ thousandths_of_g.greatest }
    ensures value { result ≡ convective_moment c acceleration }
    ensures upper_bound { result ≤ most_convective_moment }
{
    let weighted = u64::from(acceleration) * weights::convective(c);
    exact::up(weighted * u64::from(c.level), 1200000)
}
