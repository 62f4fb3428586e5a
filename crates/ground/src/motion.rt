// Ground motion from the map values (document 02, S-2).
ghost use Rattle.std.specs.Prelude.{◌≡◌, ◌≤◌};
ghost use Rattle.ground.specs.Class.{letter_of};
ghost use Rattle.ground.specs.Motion.{most_mapped, values_of, ground_motion, motion_code, ground_motion_code, ReplyJustified};

use crate::chart::{FA, FV};
use crate::class::SiteClass;
use fields::Refusal;

// SDS over 3,750,000 and SD1 over 1,500,000, in g; Av in thousandths of g.
#[derive(Clone, Copy, Debug, PartialEq, Eq)]
pub struct DesignValues {
    pub sds: u32,
    pub sd1: u32,
    pub vertical: u32,
}

// The most that Ss and S1 may be.
const MOST_MAPPED: u32 = 3000;

// The design values of a site class, by its capital letter (any byte is answered), and of map values in thousandths of g, up to 3,000.
// Refused: 41, 40.
pub fn ground_motion(class: u8, ss: u32, s1: u32) -> Result<DesignValues, Refusal>
    ensures value { result ≡ ground_motion class ss s1 }
    ensures code { motion_code result ≡ ground_motion_code class ss s1 }
    ensures reply_justified { ReplyJustified class ss s1 result }
{
    let class = SiteClass::try_from(class)?;
    if MOST_MAPPED < ss {
        return Err(Refusal::FigureOutOfRange);
    }
    if MOST_MAPPED < s1 {
        return Err(Refusal::FigureOutOfRange);
    }
    Ok(design_values(class, ss, s1))
}

fn design_values(class: SiteClass, ss: u32, s1: u32) -> DesignValues
    requires ss_le_most_mapped { ss ≤ most_mapped }
    requires s1_le_most_mapped { s1 ≤ most_mapped }
    ensures { result ≡ values_of (letter_of class) ss s1 }
{
    // Two thirds of F * S over 2,500 * 1,000 is F * S over 3,750,000, and over 1,000 * 1,000 it is F * S over 1,500,000.
    let sds = FA.adjusted(class, ss);
    let sd1 = FV.adjusted(class, s1);
    // At most 280, so the cast is whole; the other one widens, as in hoop.rt of `rules`.
    let vertical = exact::up(140 * sds as u64, 3750000) as u32;
    DesignValues { sds, sd1, vertical }
}
