// Earthquake overturning of a self-anchored tank. `as` widens, as in hoop.rt of `rules`.
ghost use Rattle.std.specs.Prelude.{◌≡◌, ◌*◌, ◌≤◌, ◌<◌, Some};
ghost use Rattle.std.specs.Fmt.{styled_text};
ghost use Rattle.fields.specs.Range.{In};
ghost use Rattle.stability.specs.Bounds.{most_plate, most_yield, most_shell, most_bottom, most_resistance};
ghost use Rattle.stability.specs.Earthquake.{shell_weight, root_yield, bottom_root, bottom_cap, bottom_weight, resistance_of, uplift_of, uplift_word, lift_word_of, quake_verdict};
ghost use Rattle.rules.specs.Verdict.{VerdictFor};

use rules::verdict::{Verdict, verdict_of};
use std::fmt;

// What an earthquake does to the edge of the bottom.
#[derive(Clone, Copy, Debug, PartialEq, Eq)]
pub enum Uplift {
    None,
    Lift,
    Over,
}

// The document's word.
impl fmt::Display for Uplift {
    ghost output = { λ u. Some (uplift_word u) };

    ghost styled_output = { λ u s. Some (styled_text s (uplift_word u)) };

    fn fmt<W: fmt::Write>(&self, f: &mut fmt::Formatter<W>) -> fmt::Result {
        f.pad(match self {
            Uplift::None => "none",
            Uplift::Lift => "lift",
            Uplift::Over => "over",
        })
    }
}

// wt: the weight of shell and roof, in hundredths of a pound per foot of shell.
pub fn shell_weight(weight: u32, vertical: u32, diameter: u32) -> u64
    requires weight_in { In 3 weight }
    requires vertical_in { In 10 vertical }
    requires diameter_in { In 1 diameter }
    ensures { result ≡ shell_weight weight vertical diameter }
{
    let num = 2712000 * weight as u64 * (10000 - 4 * vertical as u64);
    exact::down(num, 710000 * diameter as u64)
}

// The yield in the root of wL: the bottom plate's, by the liquid's gravity.
#[tactic(auto, unfolding(crate::specs::Earthquake::root_yield))]
pub fn root_yield(fy: u32, gravity: u32) -> u64
    ensures { result ≡ root_yield fy gravity }
{
    exact::down(fy as u64 * gravity as u64, 1000)
}

// The root of wL, by the strength of the bottom plate; `plate` is net of its allowance, `yield_stress` is `root_yield`.
pub fn bottom_root(plate: u32, yield_stress: u64, level: u32) -> u64
    requires plate_le_most_plate { plate ≤ most_plate }
    requires yield_stress_le_most_yield { yield_stress ≤ most_yield }
    requires level_in { In 2 level }
    ensures { result ≡ bottom_root plate yield_stress level }
{
    let tb = plate as u64;
    exact::greatest_root(12000000, 6241 * tb * tb * yield_stress * level as u64)
}

// The cap of wL, by the liquid above.
pub fn bottom_cap(level: u32, diameter: u32, gravity: u32) -> u64
    requires level_in { In 2 level }
    requires diameter_in { In 1 diameter }
    requires gravity_in { In 20 gravity }
    ensures { result ≡ bottom_cap level diameter gravity }
{
    let num = level as u64 * diameter as u64 * gravity as u64;
    exact::down(num, 11250 * 1000)
}

// wL: the weight of the liquid over the bottom annulus that resists overturning, in hundredths of a
// pound per foot of shell.
#[tactic(auto, unfolding(crate::specs::Earthquake::bottom_weight))]
pub fn bottom_weight(plate: u32, yield_stress: u64, level: u32, diameter: u32, gravity: u32) -> u64
    requires plate_le_most_plate { plate ≤ most_plate }
    requires yield_stress_le_most_yield { yield_stress ≤ most_yield }
    requires level_in { In 2 level }
    requires diameter_in { In 1 diameter }
    requires gravity_in { In 20 gravity }
    ensures { result ≡ bottom_weight plate yield_stress level diameter gravity }
{
    bottom_root(plate, yield_stress, level).min(bottom_cap(level, diameter, gravity))
}

// T: the resisting moment in foot-pounds.
pub fn resistance(diameter: u32, shell: u64, bottom: u64) -> u64
    requires diameter_in { In 1 diameter }
    requires shell_le_most_shell { shell ≤ most_shell }
    requires bottom_le_most_bottom { bottom ≤ most_bottom }
    ensures { result ≡ resistance_of diameter shell bottom }
{
    let d = diameter as u64;
    exact::down(d * d * (shell + bottom), 144000000)
}

// Uplift of the bottom's edge under an overturning moment.
pub fn uplift_of(moment: u32, resistance: u64) -> Uplift
    requires { resistance ≤ most_resistance }
    ensures value { result ≡ uplift_of moment resistance }
    ensures code { uplift_word result ≡ lift_word_of moment resistance }
{
    let need = 1000 * moment as u64;
    if need <= 785 * resistance {
        return Uplift::None;
    }
    if need <= 1540 * resistance {
        return Uplift::Lift;
    }
    Uplift::Over
}

// Whether the tank stands without anchors in an earthquake: unless its uplift is over.
pub fn check(moment: u32, resistance: u64) -> Verdict
    requires resistance_nonzero { 0 < resistance }
    requires resistance_le_most_resistance { resistance ≤ most_resistance }
    ensures value { result ≡ quake_verdict moment resistance }
    ensures verdict_for { VerdictFor (1000 * moment) (1540 * resistance) result }
{
    verdict_of(1000 * moment as u64, 1540 * resistance)
}
