// Document 01's example tank, filled in step by step, judged by D100 and printed.
#![tactic(auto)]

use entries::{Anchors, Course, Sheet, Site, Tank};
use judge::judging;
use sheet::steps;
use sheet::steps::Step;
use std::io;
use std::io::Write;
use text::printing;
use text::printing::MOST_TEXT;

// The method for hoop need: 1 for D100, 2 for API 650.
const METHOD: u32 = 1;

fn main(rt: HostRuntime) -> io::Result<()> {
    let judgement = judging::judge(METHOD, example());
    let mut out = [0u8; MOST_TEXT];
    let printed = printing::print(judgement, &mut out);
    io::writer(&rt).write_all(printing::text_in(printed, &out))
}

// No step is refused here. With other figures look at each reply's answer: after a refused step the sheet is as
// it was.
fn example() -> Sheet {
    let tank = Step::StateTank(Tank {
        diameter: 14400,
        level: 28800,
        weight: 11000,
        plate: 250,
        allowance: 0,
        fy: 36000,
        gravity: 1000,
    });
    let site = Step::StateSite(Site {
        speed: 105,
        exposure: 109,
        importance: 115,
        vertical: 27,
        moment: 30000,
    });
    let anchors = Step::StateAnchors(Anchors {
        number: 6,
        circle: 14800,
        size: 8,
    });
    let course = Step::AddCourse(Course {
        width: 9600,
        plate: 250,
        allowance: 0,
        stress: 15000,
        efficiency: 85,
    });
    let mut sheet = Sheet::empty();
    for step in [tank, site, anchors, course, course, course] {
        sheet = steps::take(sheet, step).sheet;
    }
    sheet
}
