// What the report on a sheet holds (document 01, "The rules": the numbers, verdicts and lift that its
// lines print, and the uses).
ghost use Rattle.std.specs.Prelude.{◌≡◌, Some};
ghost use Rattle.std.specs.Fmt.{styled_text};
ghost use Rattle.reports.specs.Words.{tank_word};
ghost use Rattle.reports.specs.Blank.{blank_line, blank_report};

use fields::Refusal;
use rules::verdict::Verdict;
use stability::earthquake::Uplift;
use std::fmt;

// One course: its hoop need without the allowance, the required plate and its plate, in mils. The use of
// its verdict is required over plate.
#[derive(Clone, Copy, Debug, PartialEq)]
pub struct CourseLine {
    pub need: u64,
    pub required: u64,
    pub plate: u32,
    pub verdict: Verdict,
}

// A self-anchored tank; `resistance` is T in foot-pounds.
#[derive(Clone, Copy, Debug, PartialEq)]
pub struct SelfChecks {
    pub wind: Verdict,
    pub resistance: u64,
    pub uplift: Uplift,
    pub quake: Verdict,
}

// An anchored tank; the net pulls per anchor are in pounds, up positive.
#[derive(Clone, Copy, Debug, PartialEq)]
pub struct AnchorChecks {
    pub wind_pull: i64,
    pub quake_pull: i64,
    pub spacing: Verdict,
    pub strength: Verdict,
}

// Whether the tank is self-anchored or anchored (document 01's way of standing), with nothing of the other.
#[derive(Clone, Copy, Debug, PartialEq)]
pub enum Standing {
    SelfAnchored(SelfChecks),
    Anchored(AnchorChecks),
}

// The two checks of its way of standing: wind and earthquake, or spacing and strength. `Uses` has the same form, for two floats
// (document 01), and one for both would be a type parameter more.
#[derive(Clone, Copy, Debug, PartialEq)]
pub struct Checks {
    pub first: Verdict,
    pub second: Verdict,
}

// The two uses of its way of standing: wind and earthquake, or spacing and strength.
#[derive(Clone, Copy, Debug, PartialEq)]
pub struct Uses {
    pub first: f64,
    pub second: f64,
}

// What the tank is called (document 01's word).
#[derive(Clone, Copy, Debug, PartialEq, Eq)]
pub enum Word {
    Sound,
    Short,
}

impl fmt::Display for Word {
    ghost output = { λ w. Some (tank_word w) };

    ghost styled_output = { λ w s. Some (styled_text s (tank_word w)) };

    fn fmt<W: fmt::Write>(&self, f: &mut fmt::Formatter<W>) -> fmt::Result {
        f.pad(match self {
            Word::Sound => "sound",
            Word::Short => "short",
        })
    }
}

// A line for each course from the bottom up, `count` of them; the lines past them are blank (there is no heap). Pressure in
// hundredths of a psf, moment in foot-pounds.
#[derive(Clone, Copy, Debug, PartialEq)]
pub struct Report {
    pub lines: [CourseLine; 12],
    pub count: usize,
    pub pressure: u64,
    pub moment: u64,
    pub standing: Standing,
    pub uses: Uses,
    pub word: Word,
}

// The answer to judging, and the report; beside a refusal the report is blank (document 01, "Where each form goes":
// a report that holds an array sits in a struct beside the answer).
#[derive(Clone, Copy, Debug, PartialEq)]
pub struct Judgement {
    pub answer: Result<(), Refusal>,
    pub report: Report,
}

impl CourseLine {
    pub fn blank() -> CourseLine
        ensures { result ≡ blank_line }
    {
        CourseLine {
            need: 0,
            required: 0,
            plate: 0,
            verdict: Verdict::Short(0.0),
        }
    }
}

impl Report {
    // The report beside a refusal. It says short of everything, so that it cannot pass for a sound one.
    pub fn blank() -> Report
        ensures { result ≡ blank_report }
    {
        let line = CourseLine::blank();
        let lines = [line; 12];
        let checks = SelfChecks {
            wind: Verdict::Short(0.0),
            resistance: 0,
            uplift: Uplift::Over,
            quake: Verdict::Short(0.0),
        };
        let standing = Standing::SelfAnchored(checks);
        let uses = Uses {
            first: 0.0,
            second: 0.0,
        };
        Report {
            lines,
            count: 0,
            pressure: 0,
            moment: 0,
            standing,
            uses,
            word: Word::Short,
        }
    }
}
