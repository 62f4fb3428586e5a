// A sheet out of bytes (document 01, "Filling in" and "Order"). What each step would be refused for is tested as it
// comes, and the sheet is made once, at the end: a sheet after each step would be copied each time. 30 is not tested,
// since a run leaves this sheet.
ghost use Rattle.std.specs.Prelude.{◌≡◌, ◌≤◌, length};
ghost use Rattle.fields.specs.Order.{answer_code};
ghost use Rattle.entries.specs.Sheet.{empty_sheet};
ghost use Rattle.layout.specs.Layout.{tail_length};
ghost use Rattle.layout.specs.Header.{Header};
ghost use Rattle.sheet.specs.Steps.{in_turn};
ghost use Rattle.sheet.specs.Reading.{from_courses, before_courses, steps_in, read_in, with_height, read_code, WritesBack};

use crate::steps;
use crate::steps::Reply;
use entries::{Anchors, Course, MOST_COURSES, Sheet, Site, Tank};
use fields::Refusal;
use layout::version::Version;

// A sheet that was read, and the height of its courses.
#[derive(Clone, Copy, Debug, PartialEq, Eq)]
pub struct Reading {
    pub sheet: Sheet,
    pub height: u64,
}

// The sheet that these bytes are; written again it has the same bytes, or of version 1 those of version 2, but for size 6, which is read
// in version 1 and not written. Beside a refusal it is empty. Refused: 11 for under two bytes, 13, 11, 12, 14, 15, and then as the steps are.
pub fn read(bytes: &[u8]) -> Reply
    ensures value { result ≡ read_in bytes.now }
    ensures code { answer_code result.answer ≡ read_code bytes.now }
    ensures writes_back { WritesBack bytes.now result }
{
    match read_with_height(bytes) {
        Ok(reading) => Reply {
            answer: Ok(()),
            sheet: reading.sheet,
        },
        Err(refusal) => Reply {
            answer: Err(refusal),
            sheet: Sheet::empty(),
        },
    }
}

// The same with the height of the courses, so that it need not be added up again.
pub fn read_with_height(bytes: &[u8]) -> Result<Reading, Refusal>
    ensures value { result ≡ with_height (read_in bytes.now) }
    ensures code { answer_code result ≡ read_code bytes.now }
{
    let version = layout::reading::version_in(bytes)?;
    read_entries(version, bytes)
}

// The steps that the bytes hold, in turn: tank, site and anchors, and then the courses.
fn read_entries(version: Version, bytes: &[u8]) -> Result<Reading, Refusal>
    requires { Header version bytes.now }
    ensures { result ≡ with_height (in_turn version empty_sheet (steps_in version bytes.now)) }
{
    let tank = layout::reading::tank_in(version, bytes);
    flaws::tank_flaw(tank)?;
    let tail = &bytes[version.prefix()..];
    let site: Site = layout::reading::entry_at(tail, 0);
    flaws::site_flaw(site)?;
    let anchors: Anchors = layout::reading::entry_at(tail, 20);
    steps::anchors_flaw_in(version, tank.diameter, anchors)?;
    let n = layout::reading::count_in(version, bytes);
    read_courses(tank, site, anchors, tail, n)
}

// Alike in both versions. By places, since slot and bytes are counted alike: by `zip` it is no shorter. At most twelve, for the slots.
fn read_courses(
    tank: Tank,
    site: Site,
    anchors: Anchors,
    tail: &[u8],
    n: usize,
) -> Result<Reading, Refusal>
    requires { (tail_length n ≤ length tail.now) × (n ≤ 12) }
    ensures { result ≡ with_height (in_turn Version.Two (before_courses tank site anchors) (from_courses n tail.now)) }
{
    let mut courses = [Course::blank(); MOST_COURSES];
    let mut height: u64 = 0;
    for i in 0..n {
        let c: Course = layout::reading::entry_at(tail, 33 + 20 * i);
        steps::added_flaw(height, c)?;
        courses[i] = c;
        height += u64::from(c.width);
    }
    let sheet = Sheet {
        tank: Some(tank),
        site: Some(site),
        anchors: Some(anchors),
        courses,
        count: n,
    };
    Ok(Reading { sheet, height })
}
