// The weights of the contents that move with the tank and that slosh (source 003, Eq 13-25 to 13-27; 13-26 without its tanh), each
// rounded up to a pound. The fractions are reduced, and their numerators have up to 79 and 75 bits; the quotients fit 64, and so are cast.
ghost use Rattle.std.specs.Prelude.{◌≡◌, ◌≤◌};
ghost use Rattle.slender.specs.Weights.{impulsive_weight, convective_weight};
ghost use Rattle.slender.specs.Bounds.{Slender, most_impulsive_weight, most_convective_weight};

use crate::tank::Contents;

#[tactic(auto, using(crate::proofs::WeightLaws::weight_laws))]
pub(crate) fn impulsive(c: Contents) -> u64
    requires { Slender c }
    ensures value { result ≡ impulsive_weight c }
    ensures upper_bound { result ≤ most_impulsive_weight }
{
    let d = u64::from(c.diameter);
    let area = 923 * u64::from(c.gravity) * d * d;
    let height = 500 * u64::from(c.level) - 109 * d;
    exact::up(exact::product(area, height), 16272000000000000) as u64
}

#[tactic(auto, using(crate::proofs::WeightLaws::weight_laws))]
pub(crate) fn convective(c: Contents) -> u64
    requires { Slender c }
    ensures value { result ≡ convective_weight c }
    ensures upper_bound { result ≤ most_convective_weight }
{
    let d = u64::from(c.diameter);
    let num = exact::product(21229 * u64::from(c.gravity) * d, d * d);
    exact::up(num, 3254400000000000) as u64
}
