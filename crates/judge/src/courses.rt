// The courses' lines of a report, and whether they all hold.
ghost use Rattle.std.specs.Prelude.{◌≡◌, T};
ghost use Rattle.lists.specs.Pad.{padded};
ghost use Rattle.fields.specs.Order.{clear};
ghost use Rattle.flaws.specs.Flaws.{tank_flaws, course_flaws};
ghost use Rattle.sheet.specs.Complete.{courses_of, Valid};
ghost use Rattle.reports.specs.Blank.{blank_line};
ghost use Rattle.claims.specs.Report.{line_of, lines_of, courses_hold};

use entries::{Course, Entries, MOST_COURSES, Tank};
use reports::report::CourseLine;
use rules::hoop;
use rules::method::Method;

// The line of a course whose bottom edge is at this height.
fn line(method: Method, tank: Tank, edge: u32, c: Course) -> CourseLine
    requires tank_clear { T (clear (tank_flaws tank)) }
    requires course_clear { T (clear (course_flaws c)) }
    ensures { result ≡ line_of method tank edge c }
{
    let h = hoop::head(tank.level, edge);
    let design = hoop::design_head(method, h);
    let need = hoop::need(design, tank.diameter, tank.gravity, c.stress, c.efficiency);
    let required = hoop::required(need, c.allowance, tank.diameter);
    let verdict = hoop::check(required, c.plate);
    CourseLine {
        need,
        required,
        plate: c.plate,
        verdict,
    }
}

// The courses' lines, and blank ones up to twelve. By places, since line and course stand at the same one: by `zip` it is no
// shorter.
pub(crate) fn lines(method: Method, e: &Entries) -> [CourseLine; 12]
    requires { Valid e.now }
    ensures { result ≡ padded blank_line (lines_of method e.now.tank 0 (courses_of e.now)) }
{
    let mut all = [CourseLine::blank(); MOST_COURSES];
    let mut edge: u32 = 0;
    for i in 0..e.count {
        let c = e.courses[i];
        all[i] = line(method, e.tank, edge, c);
        edge += c.width;
    }
    all
}

// Whether these courses hold.
#[tactic(auto, unfolding(claims::specs::Report::courses_hold))]
pub(crate) fn all_hold(lines: &[CourseLine]) -> bool
    ensures { result ≡ courses_hold lines.now }
{
    lines.iter().all(|l| l.verdict.holds())
}
