// The earthquake moment of a slender tank (document 02, S-9).
ghost use Rattle.std.specs.Prelude.{◌≡◌};
ghost use Rattle.slender.specs.Question.{earthquake_moment, moment_code, earthquake_moment_code, ReplyJustified};

use crate::moments;
use crate::tank::{Accelerations, SlenderTank, in_ranges};
use fields::Refusal;

// The most that a moment may be, as for field 11 of a sheet.
const MOST_MOMENT: u32 = 1000000000;

// Ms of document 01's field 11, in foot-pounds. Refused: 40, 44, 45.
pub fn earthquake_moment(tank: SlenderTank, ground: Accelerations) -> Result<u32, Refusal>
    ensures value { result ≡ earthquake_moment tank ground }
    ensures code { moment_code result ≡ earthquake_moment_code tank ground }
    ensures reply_justified { ReplyJustified tank ground result }
{
    if !in_ranges(tank, ground) {
        return Err(Refusal::FigureOutOfRange);
    }
    if !tank.contents.is_slender() {
        return Err(Refusal::NotSlender);
    }
    let moment = moments::earthquake(tank, ground);
    if MOST_MOMENT < moment {
        return Err(Refusal::MomentTooLarge);
    }
    Ok(moment)
}
