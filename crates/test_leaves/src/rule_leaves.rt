// The leaves of `rules` and `stability`, numbered from 20, of water; those that take a method are in `method_leaves`, those
// of a reduced weight in `weight_leaves`, those that take a gravity in `gravity_leaves`.
ghost use Rattle.stability.specs.Anchors.{fraction};
ghost use Rattle.stability.specs.Bounds.{WeightIn};

use crate::clamp::{
    ALLOWANCE, ANCHORED_CIRCLE, ANCHORS, AREA, CIRCLE, DIAMETER, EXPOSURE, HEIGHT, IMPORTANCE,
    MOMENT, PLATE, SPEED, VERTICAL, WEIGHT, field, figure,
};
use crate::exact_leaves::signed;
use crate::gravity_leaves::WATER;
use crate::{gravity_leaves, print};
use rules::verdict::Verdict;
use rules::{hoop, wind};
use stability::anchors::DeadWeight;
use stability::earthquake::Uplift;
use stability::{anchors, earthquake};
use std::io;
use std::io::Write;

// The most that the resisting moment may be.
const MOST_RESISTANCE: u64 = 13584362000;

pub(crate) fn answer<W: Write>(out: &mut W, leaf: u64, arguments: [u64; 4]) -> io::Result<()> {
    let [a, b, c, d] = arguments;
    match leaf {
        20 => print::value(out, hoop::head(figure(a), figure(b))),
        21 => print::value(out, gravity_leaves::need(a, b, c, d, WATER)),
        22 => print::value(out, hoop::floor(figure(a))),
        23 => print::value(out, required(a, b, c)),
        24 => print::verdict(out, hoop::check(a.min(8905), field(b, PLATE))),
        25 => print::value(out, pressure(a, b, c)),
        26 => print::value(out, moment(a, b, c)),
        27 => print::answer(out, wind::standard_site(figure(a))),
        _ => standing(out, leaf, arguments),
    }
}

fn standing<W: Write>(out: &mut W, leaf: u64, arguments: [u64; 4]) -> io::Result<()> {
    let [a, b, c, d] = arguments;
    match leaf {
        28 => print::value(out, shell_weight(a, b, c)),
        29 => print::value(out, gravity_leaves::bottom_root(a, b, c, WATER)),
        30 => print::value(out, gravity_leaves::bottom_cap(a, b, WATER)),
        31 => print::value(out, gravity_leaves::bottom_weight(a, b, c, d, WATER)),
        32 => print::value(out, resistance(a, b, c)),
        33 => print::value(out, uplift(a, b)),
        34 => print::verdict(out, quake(a, b)),
        35 => print::value(out, whole_pull(a, b, c, d)),
        36 => print::value(out, anchors::larger(signed(a, b), signed(c, d))),
        37 => print::verdict(out, anchors::spacing(field(a, CIRCLE), field(b, ANCHORS))),
        38 => print::verdict(out, strength(a, b)),
        39 => print::verdict(out, self_wind(a, b, c)),
        _ => print::out(out),
    }
}

fn required(need: u64, allowance: u64, diameter: u64) -> u64 {
    hoop::required(
        need.min(8655),
        field(allowance, ALLOWANCE),
        figure(diameter),
    )
}

fn pressure(exposure: u64, importance: u64, speed: u64) -> u64 {
    wind::pressure(
        field(exposure, EXPOSURE),
        field(importance, IMPORTANCE),
        field(speed, SPEED),
    )
}

fn moment(pressure: u64, diameter: u64, height: u64) -> u64 {
    wind::moment(
        pressure.min(6480),
        field(diameter, DIAMETER),
        field(height, HEIGHT),
    )
}

fn shell_weight(weight: u64, vertical: u64, diameter: u64) -> u64 {
    earthquake::shell_weight(
        field(weight, WEIGHT),
        field(vertical, VERTICAL),
        field(diameter, DIAMETER),
    )
}

fn resistance(diameter: u64, shell: u64, bottom: u64) -> u64 {
    earthquake::resistance(
        field(diameter, DIAMETER),
        shell.min(31830985),
        bottom.min(2129920),
    )
}

fn uplift(moment: u64, resistance: u64) -> Uplift {
    earthquake::uplift_of(field(moment, MOMENT), resistance.min(MOST_RESISTANCE))
}

fn quake(moment: u64, resistance: u64) -> Verdict {
    earthquake::check(field(moment, MOMENT), resistance.clamp(1, MOST_RESISTANCE))
}

fn whole_pull(moment: u64, weight: u64, circle: u64, count: u64) -> i64 {
    pull(
        moment,
        DeadWeight::whole(field(weight, WEIGHT)),
        circle,
        count,
    )
}

pub(crate) fn pull(moment: u64, weight: DeadWeight, circle: u64, count: u64) -> i64
    requires { WeightIn (fraction weight) }
{
    anchors::pull(
        u64::from(field(moment, MOMENT)),
        weight,
        field(circle, ANCHORED_CIRCLE),
        field(count, ANCHORS),
    )
}

fn strength(pull: u64, area: u64) -> Verdict {
    anchors::strength(pull.min(800000000000), field(area, AREA))
}

fn self_wind(moment: u64, weight: u64, diameter: u64) -> Verdict {
    anchors::self_wind(
        u64::from(field(moment, MOMENT)),
        field(weight, WEIGHT),
        field(diameter, DIAMETER),
    )
}
