// The leaves of `fields`, numbered from 10.
use crate::clamp::figure;
use crate::print;
use fields::Refusal;
use std::io;
use std::io::Write;

pub(crate) fn answer<W: Write>(out: &mut W, leaf: u64, arguments: [u64; 4]) -> io::Result<()> {
    let [a, b, _, _] = arguments;
    match leaf {
        10 => print::value(out, yes_or_no(fields::in_range(figure(a), figure(b)))),
        11 => print::value(out, fields::stress_area(figure(a)).unwrap_or(0)),
        12 => print::refusal(out, refusal(a, figure(b))),
        _ => print::out(out),
    }
}

fn yes_or_no(b: bool) -> &'static str {
    if b { "yes" } else { "no" }
}

// The refusals in the order of their numbers, and 39, which came later. The place is the vectors', and is matched here alone.
fn refusal(place: u64, field: u32) -> Refusal {
    match place {
        0 => Refusal::TooFewBytes,
        1 => Refusal::TooManyBytes,
        2 => Refusal::BadLength,
        3 => Refusal::BadVersion,
        4 => Refusal::BadCount,
        5 => Refusal::OutOfRange(field),
        6 => Refusal::AllowanceNotBelowPlate,
        7 => Refusal::BadAnchors,
        8 => Refusal::BufferTooShort,
        9 => Refusal::Unreachable,
        10 => Refusal::TankStated,
        11 => Refusal::NoTank,
        12 => Refusal::CoursesFull,
        13 => Refusal::ShellTooHigh,
        14 => Refusal::NoCourse,
        15 => Refusal::NoSite,
        16 => Refusal::WaterAboveShell,
        17 => Refusal::AnchorsUnstated,
        18 => Refusal::FigureOutOfRange,
        19 => Refusal::BadSiteClass,
        20 => Refusal::BadMethod,
        21 => Refusal::ShellUplift,
        22 => Refusal::NotSlender,
        23 => Refusal::MomentTooLarge,
        _ => Refusal::SizeDiscontinued,
    }
}
