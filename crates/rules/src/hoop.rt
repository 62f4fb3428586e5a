// Hoop thickness of a course. `as` widens what goes into a product or a call: by `From` each answer has to rewrite by the
// equation of each call (tried).
ghost use Rattle.std.specs.Prelude.{◌≡◌, ◌≤◌};
ghost use Rattle.fields.specs.Range.{In};
ghost use Rattle.rules.specs.Bounds.{most_height, most_need, most_required};
ghost use Rattle.rules.specs.Hoop.{head_of, design_head, hoop_need, plate_floor, required_plate, course_verdict};
ghost use Rattle.rules.specs.Verdict.{VerdictFor};

use crate::method::Method;
use crate::verdict::{Verdict, verdict_of};

// The height of the liquid over a course's bottom edge, or 0.
#[tactic(auto, unfolding(crate::specs::Hoop::head_of))]
pub fn head(level: u32, edge: u32) -> u32
    ensures { result ≡ head_of level edge }
{
    level.saturating_sub(edge)
}

// A foot in hundredths of an inch.
const FOOT: u32 = 1200;

// What stands for h in a method's formula: by API 650 h less a foot, or 0.
#[tactic(auto, unfolding(crate::specs::Hoop::head_of, crate::specs::Hoop::design_head))]
pub fn design_head(method: Method, h: u32) -> u32
    ensures { result ≡ design_head method h }
{
    match method {
        Method::D100 => h,
        Method::Api650 => head(h, FOOT),
    }
}

// The mill's step, in mils.
const STEP: u64 = 5;

// The hoop need in mils, a multiple of the mill's step, without the allowance; h as the method has it, `gravity` the liquid's.
#[tactic(auto, using(crate::proofs::Bounds::need_most), unfolding(crate::specs::Hoop::hoop_need, crate::specs::Hoop::hoop_exact, exact::specs::Quotient::up_to))]
pub fn need(h: u32, diameter: u32, gravity: u32, stress: u32, efficiency: u32) -> u64
    requires h_le_most_height { h ≤ most_height }
    requires diameter_in { In 1 diameter }
    requires gravity_in { In 20 gravity }
    requires stress_in { In 18 stress }
    requires efficiency_in { In 19 efficiency }
    ensures { result ≡ hoop_need h diameter gravity stress efficiency }
{
    let num = 13 * h as u64 * diameter as u64 * gravity as u64;
    let den = 72 * stress as u64 * efficiency as u64 * 1000;
    STEP * exact::up(num, STEP * den)
}

// The least plate for a diameter.
#[tactic(auto, unfolding(crate::specs::Hoop::plate_floor))]
pub fn floor(diameter: u32) -> u64
    ensures { result ≡ plate_floor diameter }
{
    match diameter {
        0..=60000 => 188,
        60001..=144000 => 250,
        _ => 313,
    }
}

// The required plate: the need with the allowance or the floor, whichever is larger.
#[tactic(auto, unfolding(crate::specs::Hoop::required_plate))]
pub fn required(need: u64, allowance: u32, diameter: u32) -> u64
    requires need_le_most_need { need ≤ most_need }
    requires allowance_in { In 17 allowance }
    ensures { result ≡ required_plate need allowance diameter }
{
    (need + u64::from(allowance)).max(floor(diameter))
}

// Whether the plate is at least the required one.
pub fn check(required: u64, plate: u32) -> Verdict
    requires required_le_most_required { required ≤ most_required }
    requires plate_in { In 16 plate }
    ensures value { result ≡ course_verdict required plate }
    ensures verdict_for { VerdictFor required plate result }
{
    verdict_of(required, plate as u64)
}
