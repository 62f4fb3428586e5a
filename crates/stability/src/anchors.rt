// Anchors, and wind on a tank that has none. `as` widens, as in hoop.rt of `rules`; into an i64 there is
// no From.
ghost use Rattle.std.specs.Prelude.{◌≡◌, ◌*◌, ◌≤◌, ◌<◌};
ghost use Rattle.exact.specs.Quotient.{whole};
ghost use Rattle.fields.specs.Range.{In};
ghost use Rattle.rules.specs.Bounds.{most_moment};
ghost use Rattle.stability.specs.Bounds.{WeightIn, most_pull};
ghost use Rattle.stability.specs.Anchors.{reduced_weight, fraction, pull_of, larger_pull, spacing_verdict, strength_verdict, wind_verdict};
ghost use Rattle.rules.specs.Verdict.{VerdictFor};

use rules::verdict::{Verdict, verdict_of};

// The dead weight that resists uplift, num / den pounds: a fraction, so that a pull is rounded once.
#[derive(Clone, Copy, Debug, PartialEq, Eq)]
pub struct DeadWeight {
    pub num: u64,
    pub den: u64,
}

impl DeadWeight {
    // All of it, as in the wind.
    pub fn whole(weight: u32) -> DeadWeight
        ensures { fraction result ≡ whole weight }
    {
        DeadWeight {
            num: weight as u64,
            den: 1,
        }
    }

    // What is left of it in an earthquake with this vertical acceleration.
    pub fn reduced(weight: u32, vertical: u32) -> DeadWeight
        requires weight_in { In 3 weight }
        requires vertical_in { In 10 vertical }
        ensures { fraction result ≡ reduced_weight weight vertical }
    {
        DeadWeight {
            num: weight as u64 * (10000 - 4 * vertical as u64),
            den: 10000,
        }
    }
}

// The net pull per anchor in pounds, up positive, of a moment on a bolt circle that a dead weight holds down.
pub fn pull(moment: u64, weight: DeadWeight, circle: u32, count: u32) -> i64
    requires moment_le_most_moment { moment ≤ most_moment }
    requires weight_in { WeightIn (fraction weight) }
    requires circle_nonzero { 0 < circle }
    requires circle_in { In 13 circle }
    requires count_in { In 12 count }
    ensures { result ≡ pull_of moment (fraction weight) circle count }
{
    let held = weight.num;
    let parts = weight.den;
    let up = 4800 * moment * parts;
    let down = held * circle as u64;
    let den = parts * (count as u64 * circle as u64);
    exact::up_signed(up as i64 - down as i64, den as i64)
}

// What the strength rule takes of two pulls: the larger, or 0 if that is negative.
#[tactic(auto, unfolding(crate::specs::Anchors::larger_pull))]
pub fn larger(wind: i64, quake: i64) -> u64
    ensures { result ≡ larger_pull wind quake }
{
    exact::positive_part(wind.max(quake))
}

// Whether the anchors stand close enough.
pub fn spacing(circle: u32, count: u32) -> Verdict
    requires { In 12 count }
    ensures value { result ≡ spacing_verdict circle count }
    ensures verdict_for { VerdictFor (355 * circle) (1356000 * count) result }
{
    verdict_of(355 * circle as u64, 1356000 * count as u64)
}

// Whether an anchor of this stress area holds the larger pull.
pub fn strength(pull: u64, area: u32) -> Verdict
    requires pull_le_most_pull { pull ≤ most_pull }
    requires area_nonzero { 0 < area }
    ensures value { result ≡ strength_verdict pull area }
    ensures verdict_for { VerdictFor (1000 * pull) (19950 * area) result }
{
    verdict_of(1000 * pull, 19950 * area as u64)
}

// Whether a tank without anchors stands in the wind.
pub fn self_wind(moment: u64, weight: u32, diameter: u32) -> Verdict
    requires moment_le_most_moment { moment ≤ most_moment }
    requires weight_in { In 3 weight }
    requires diameter_in { In 1 diameter }
    ensures value { result ≡ wind_verdict moment weight diameter }
    ensures verdict_for { VerdictFor (3600 * moment) (weight * diameter) result }
{
    verdict_of(3600 * moment, weight as u64 * diameter as u64)
}
