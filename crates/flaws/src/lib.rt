// What the figures of a step are refused for: 16, 17 and 18 (document 01, "Refusals that come from
// the input"), and 39 (document 02, S-10).
#![tactic(auto)]

ghost use Rattle.std.specs.Prelude.{◌≡◌, [], ◌∷◌, not};
ghost use Rattle.fields.specs.Range.{range, within};
ghost use Rattle.fields.specs.Order.{◌when◌, first_of, answer_code, first_code};
ghost use Rattle.flaws.specs.Flaws.{allowance_too_large, bad_anchors, size_discontinued, tank_flaws, site_flaws, anchor_flaws, course_flaws};

use entries::{Anchors, Course, Site, Tank};
use fields::Refusal;

// 16, where this figure is outside the range of its field. The callers give the field as a literal, so that its
// range is two constants of the machine code.
fn check_range(field: u32, figure: u32) -> Result<(), Refusal>
    ensures { result ≡ first_of ((Refusal.OutOfRange field when not (within (range field) figure)) ∷ []) }
{
    if fields::in_range(field, figure) {
        Ok(())
    } else {
        Err(Refusal::OutOfRange(field))
    }
}

// 17, where the allowance is not less than the plate.
fn check_allowance(plate: u32, allowance: u32) -> Result<(), Refusal>
    ensures { result ≡ first_of (allowance_too_large plate allowance ∷ []) }
{
    if plate <= allowance {
        Err(Refusal::AllowanceNotBelowPlate)
    } else {
        Ok(())
    }
}

// Four alike in shape: a line for each field, in the documents' order, is what each says.
#[tactic(auto, unfolding(crate::specs::Flaws::tank_flaws))]
pub fn tank_flaw(t: Tank) -> Result<(), Refusal>
    ensures value { result ≡ first_of (tank_flaws t) }
    ensures code { answer_code result ≡ first_code (tank_flaws t) }
{
    check_range(1, t.diameter)?;
    check_range(2, t.level)?;
    check_range(3, t.weight)?;
    check_range(4, t.plate)?;
    check_range(5, t.allowance)?;
    check_range(6, t.fy)?;
    check_range(20, t.gravity)?;
    check_allowance(t.plate, t.allowance)
}

#[tactic(auto, unfolding(crate::specs::Flaws::site_flaws))]
pub fn site_flaw(x: Site) -> Result<(), Refusal>
    ensures value { result ≡ first_of (site_flaws x) }
    ensures code { answer_code result ≡ first_code (site_flaws x) }
{
    check_range(7, x.speed)?;
    check_range(8, x.exposure)?;
    check_range(9, x.importance)?;
    check_range(10, x.vertical)?;
    check_range(11, x.moment)
}

// For a tank of this diameter, but for 39.
#[tactic(auto, unfolding(crate::specs::Flaws::anchor_flaws))]
pub fn anchors_flaw(diameter: u32, a: Anchors) -> Result<(), Refusal>
    ensures value { result ≡ first_of (anchor_flaws diameter a) }
    ensures code { answer_code result ≡ first_code (anchor_flaws diameter a) }
{
    check_range(12, a.number)?;
    check_range(13, a.circle)?;
    check_range(14, a.size)?;
    if bad_anchors(diameter, a) {
        return Err(Refusal::BadAnchors);
    }
    Ok(())
}

// The condition of 18.
fn bad_anchors(diameter: u32, a: Anchors) -> bool
    ensures { result ≡ bad_anchors diameter a }
{
    if a.number == 0 {
        return a.circle != 0 || a.size != 0;
    }
    a.circle < diameter || fields::stress_area(a.size).is_none()
}

// 39, for the size that can be neither stated nor written any more.
pub fn size_flaw(a: Anchors) -> Result<(), Refusal>
    ensures value { result ≡ first_of (size_discontinued a ∷ []) }
    ensures code { answer_code result ≡ first_code (size_discontinued a ∷ []) }
{
    if fields::is_discontinued(a.size) {
        Err(Refusal::SizeDiscontinued)
    } else {
        Ok(())
    }
}

#[tactic(auto, unfolding(crate::specs::Flaws::course_flaws))]
pub fn course_flaw(c: Course) -> Result<(), Refusal>
    ensures value { result ≡ first_of (course_flaws c) }
    ensures code { answer_code result ≡ first_code (course_flaws c) }
{
    check_range(15, c.width)?;
    check_range(16, c.plate)?;
    check_range(17, c.allowance)?;
    check_range(18, c.stress)?;
    check_range(19, c.efficiency)?;
    check_allowance(c.plate, c.allowance)
}
