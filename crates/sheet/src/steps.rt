// The steps that fill a sheet in (document 01, "Filling in" and "Order"; document 02, S-10). A refused step
// gives back the sheet that was handed in.
ghost use Rattle.std.specs.Prelude.{◌≡◌, [], ◌∷◌, ◌++◌, ◌≤◌, T, ltb};
ghost use Rattle.fields.specs.Order.{◌when◌, first_of, reply_unless, answer_code, first_code};
ghost use Rattle.flaws.specs.Flaws.{too_high, anchor_flaws, course_flaws};
ghost use Rattle.sheet.specs.Steps.{size_flaws, order_of, filled, anchors_after, reachable, unreachable, stated};

use crate::reach;
use entries::{Anchors, Course, MOST_COURSES, MOST_HEIGHT, Sheet, Site, Tank};
use fields::Refusal;
use layout::version::Version;
use parts::slots;

// A step, with the figures that it states.
#[derive(Clone, Copy, Debug, PartialEq, Eq)]
pub enum Step {
    // Fields 1 to 6 and 20, once. Refused: 30, 31, 16, 17.
    StateTank(Tank),
    // Fields 7 to 11; the later ones count. Refused: 30, 32, 16.
    StateSite(Site),
    // Fields 12 to 14; the later ones count. Refused: 30, 32, 16, 18, 39.
    StateAnchors(Anchors),
    // Fields 15 to 19, of the next course up. Refused: 30, 32, 33, 16, 17, 34.
    AddCourse(Course),
}

// The answer to a step, or to reading, and the sheet after it (document 01: a refused step leaves the sheet as it
// was, so there is one beside a refusal too).
#[derive(Clone, Copy, Debug, PartialEq, Eq)]
pub struct Reply {
    pub answer: Result<(), Refusal>,
    pub sheet: Sheet,
}

// Beside a refusal the sheet that was handed in (`read` has the empty one there, so the two matches differ).
pub fn take(s: Sheet, step: Step) -> Reply
    ensures value { result ≡ stated s step }
    ensures code { answer_code result.answer ≡ first_code (unreachable s ∷ order_of Version.Two s step) }
    ensures anchors { result.sheet.anchors ≡ anchors_after s.anchors step result.answer }
{
    match after(s, step) {
        Ok(sheet) => Reply {
            answer: Ok(()),
            sheet,
        },
        Err(refusal) => Reply {
            answer: Err(refusal),
            sheet: s,
        },
    }
}

// The sheet that a step leaves. By a match, since the four take figures of different types.
fn after(s: Sheet, step: Step) -> Result<Sheet, Refusal>
    ensures { result ≡ reply_unless (first_of (unreachable s ∷ order_of Version.Two s step)) (filled s step) }
{
    if !reach::is_reachable(s) {
        return Err(Refusal::Unreachable);
    }
    match step {
        Step::StateTank(t) => state_tank(s, t),
        Step::StateSite(x) => state_site(s, x),
        Step::StateAnchors(a) => state_anchors(s, a),
        Step::AddCourse(c) => add_course(s, c),
    }
}

// The steps without their test for 30.
fn state_tank(s: Sheet, t: Tank) -> Result<Sheet, Refusal>
    ensures { result ≡ reply_unless (first_of (order_of Version.Two s (Step.StateTank t))) (filled s (Step.StateTank t)) }
{
    if s.tank.is_some() {
        return Err(Refusal::TankStated);
    }
    flaws::tank_flaw(t)?;
    Ok(Sheet { tank: Some(t), ..s })
}

fn state_site(s: Sheet, x: Site) -> Result<Sheet, Refusal>
    ensures { result ≡ reply_unless (first_of (order_of Version.Two s (Step.StateSite x))) (filled s (Step.StateSite x)) }
{
    s.tank.ok_or(Refusal::NoTank)?;
    flaws::site_flaw(x)?;
    Ok(Sheet { site: Some(x), ..s })
}

fn state_anchors(s: Sheet, a: Anchors) -> Result<Sheet, Refusal>
    ensures { result ≡ reply_unless (first_of (order_of Version.Two s (Step.StateAnchors a))) (filled s (Step.StateAnchors a)) }
{
    let tank = s.tank.ok_or(Refusal::NoTank)?;
    anchors_flaw_in(Version::Two, tank.diameter, a)?;
    Ok(Sheet {
        anchors: Some(a),
        ..s
    })
}

// What anchors are refused for on a tank of this diameter: 16, 18, and 39 but in version 1.
pub(crate) fn anchors_flaw_in(version: Version, diameter: u32, a: Anchors) -> Result<(), Refusal>
    ensures { result ≡ first_of (anchor_flaws diameter a ++ size_flaws version a) }
{
    flaws::anchors_flaw(diameter, a)?;
    match version {
        Version::One => Ok(()),
        Version::Two => flaws::size_flaw(a),
    }
}

// What a course is refused for on courses of this height: 16, 17, 34.
pub(crate) fn added_flaw(height: u64, c: Course) -> Result<(), Refusal>
    requires { height ≤ 76800 }
    ensures { result ≡ first_of (course_flaws c ++ too_high height c ∷ []) }
{
    flaws::course_flaw(c)?;
    check_height(height + u64::from(c.width))
}

fn check_height(height: u64) -> Result<(), Refusal>
    ensures { result ≡ first_of ((Refusal.ShellTooHigh when ltb 76800 height) ∷ []) }
{
    if MOST_HEIGHT < height {
        Err(Refusal::ShellTooHigh)
    } else {
        Ok(())
    }
}

fn add_course(s: Sheet, c: Course) -> Result<Sheet, Refusal>
    requires { T (reachable s) }
    ensures { result ≡ reply_unless (first_of (order_of Version.Two s (Step.AddCourse c))) (filled s (Step.AddCourse c)) }
{
    s.tank.ok_or(Refusal::NoTank)?;
    let n = s.count;
    if MOST_COURSES <= n {
        return Err(Refusal::CoursesFull);
    }
    let mut courses = s.courses;
    added_flaw(slots::height(&courses[..n]), c)?;
    courses[n] = c;
    Ok(Sheet {
        courses,
        count: n + 1,
        ..s
    })
}
