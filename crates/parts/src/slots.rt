// The twelve slots for courses: those that are used, and those that are not.
ghost use Rattle.std.specs.Prelude.{◌≡◌, ◌≤◌, length, take, drop};
ghost use Rattle.fields.specs.Order.{clear};
ghost use Rattle.entries.specs.Sheet.{height_of, course_figures};
ghost use Rattle.flaws.specs.Flaws.{course_flaws};
ghost use Rattle.parts.specs.Parts.{blank, courses_clear, courses_blank, slots_reachable};

use entries::{Course, MOST_COURSES, MOST_HEIGHT};

// Whether the first n slots can be courses that were added in turn, and the others were never used. An array and a
// count, as a sheet has them: there is no heap.
#[tactic(auto, unfolding(crate::specs::Parts::slots_reachable))]
pub fn slots_reachable(courses: [Course; 12], n: usize) -> bool
    ensures { result ≡ slots_reachable courses n }
{
    if MOST_COURSES < n {
        return false;
    }
    let held = &courses[..n];
    courses_clear(held) && height(held) <= MOST_HEIGHT && courses_blank(&courses[n..])
}

#[tactic(auto, unfolding(crate::specs::Parts::courses_clear))]
fn courses_clear(courses: &[Course]) -> bool
    ensures { result ≡ courses_clear courses.now }
{
    courses.iter().all(|&c| is_clear(c))
}

#[tactic(auto, using(fields::proofs::OrderLaws::clear_of))]
fn is_clear(c: Course) -> bool
    ensures { result ≡ clear (course_flaws c) }
{
    flaws::course_flaw(c).is_ok()
}

// The height of these courses. It cannot overflow, whatever the widths.
pub fn height(courses: &[Course]) -> u64
    requires { length courses.now ≤ 12 }
    ensures { result ≡ height_of courses.now }
{
    courses.iter().map(|c| u64::from(c.width)).sum()
}

// Whether these slots are blank.
#[tactic(auto, unfolding(crate::specs::Parts::courses_blank))]
fn courses_blank(slots: &[Course]) -> bool
    ensures { result ≡ courses_blank slots.now }
{
    slots.iter().all(|&c| is_blank(c))
}

fn is_blank(c: Course) -> bool
    ensures { result ≡ blank (course_figures c) }
{
    c == Course::blank()
}
