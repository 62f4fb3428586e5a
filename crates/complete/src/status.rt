// What judging and writing ask of a sheet first, and the entries of a complete one (document 01, "Filling
// in" and "Order"; document 02, S-1).
ghost use Rattle.std.specs.Prelude.{◌≡◌, T};
ghost use Rattle.entries.specs.Sheet.{held, height_of};
ghost use Rattle.sheet.specs.Steps.{reachable};
ghost use Rattle.sheet.specs.Complete.{completed_of, completed_code, sheet_code};
ghost use Rattle.sheet.specs.Reading.{read_completed, bytes_code};

use entries::{Entries, Sheet};
use fields::Refusal;
use parts::slots;
use sheet::reach;

// The entries of this sheet. Refused: 30, 32, 35, 36, 38.
pub fn of_sheet(s: Sheet) -> Result<Entries, Refusal>
    ensures value { result ≡ completed_of s }
    ensures code { completed_code result ≡ sheet_code s }
{
    if !reach::is_reachable(s) {
        return Err(Refusal::Unreachable);
    }
    let height = slots::height(&s.courses[..s.count]);
    complete_reachable(s, height)
}

// The entries of the sheet that these bytes are, which is not tested for 30: a run leaves what is read.
// Refused: as reading is.
pub fn of_bytes(bytes: &[u8]) -> Result<Entries, Refusal>
    ensures value { result ≡ read_completed bytes.now }
    ensures code { completed_code result ≡ bytes_code bytes.now }
{
    let reading = sheet::reading::read_with_height(bytes)?;
    complete_reachable(reading.sheet, reading.height)
}

// The entries of a sheet that a run has left, whose courses have this height (at most 76,800, so the cast is whole). Refused: 32, 35, 36, 38.
#[tactic(auto, unfolding(sheet::specs::Complete::completed_of))]
fn complete_reachable(s: Sheet, height: u64) -> Result<Entries, Refusal>
    requires reached { T (reachable s) }
    requires height_value { height ≡ height_of (held s) }
    ensures { result ≡ completed_of s }
{
    let tank = s.tank.ok_or(Refusal::NoTank)?;
    if s.count == 0 {
        return Err(Refusal::NoCourse);
    }
    let site = s.site.ok_or(Refusal::NoSite)?;
    let anchors = s.anchors.ok_or(Refusal::AnchorsUnstated)?;
    let courses = s.courses;
    Ok(Entries {
        tank,
        site,
        anchors,
        courses,
        count: s.count,
        height: height as u32,
    })
}
