// A quotient as a float.
ghost use Rattle.std.specs.Prelude.{◌≡◌, false};
ghost use Rattle.std.specs.Float.{binary64};
ghost use Rattle.std.specs.Float.Ieee.{round};
ghost use Rattle.exact.specs.Sides.{Sides};

// The f64 nearest to need / capacity, ties to even: both sides are exact as f64, so the one division
// rounds once.
#[tactic(auto, using(crate::proofs::RatioLaws::sides_quotient))]
pub fn nearest(need: u64, capacity: u64) -> f64
    requires { Sides need capacity }
    ensures { result ≡ round binary64 false need capacity }
{
    let above = need as f64;
    let below = capacity as f64;
    above / below
}
