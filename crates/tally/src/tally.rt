// A tally, and one judgement more.
ghost use Rattle.std.specs.Prelude.{◌≡◌, ◌≤◌, ◌<◌, ◌*◌, T, map, length, nat_abs, Some};
ghost use Rattle.std.specs.List.{list_all};
ghost use Rattle.rules.specs.Bounds.{most_required};
ghost use Rattle.tally.specs.Tally.{difference, most_sheets};
ghost use Rattle.tally.specs.Parts.{lesser, counted, with_differences, with_report, is_measured, Measured, Bounded};

use reports::report::{CourseLine, Judgement, Report, Word};

// How many sheets were read, sound, short and refused; and of all judged courses plate minus required, in mils: the sum, and the
// smallest, where any course was judged.
#[derive(Clone, Copy, Debug, PartialEq, Eq)]
pub struct Tally {
    pub read: u64,
    pub sound: u64,
    pub short: u64,
    pub refused: u64,
    pub sum: i64,
    pub least: Option<i64>,
}

impl Tally {
    // One judgement more.
    pub(crate) fn counted(self, j: &Judgement) -> Tally
        requires bounded { Bounded self }
        requires room { self.read < most_sheets }
        requires measured { Measured j.now.report }
        ensures { result ≡ counted self j.now }
    {
        match j.answer {
            Ok(()) => self.with_report(&j.report),
            Err(_) => Tally {
                read: self.read + 1,
                refused: self.refused + 1,
                ..self
            },
        }
    }

    fn with_report(self, r: &Report) -> Tally
        requires bounded { Bounded self }
        requires room { self.read < most_sheets }
        requires measured { Measured r.now }
        ensures { result ≡ with_report self r.now }
    {
        let lines: &[CourseLine] = &r.lines;
        let t = self.with_lines(&lines[..r.count]);
        match r.word {
            Word::Sound => Tally {
                read: t.read + 1,
                sound: t.sound + 1,
                ..t
            },
            Word::Short => Tally {
                read: t.read + 1,
                short: t.short + 1,
                ..t
            },
        }
    }

    // The courses of a report.
    fn with_lines(self, lines: &[CourseLine]) -> Tally
        requires few { length lines.now ≤ 12 }
        requires measured { T (list_all is_measured lines.now) }
        requires sum { nat_abs self.sum ≤ 12 * most_required * most_sheets }
        ensures { result ≡ with_differences self (map difference lines.now) }
    {
        let mut sum = self.sum;
        let mut least = self.least;
        for line in lines {
            let d = difference(*line);
            sum += d;
            least = lesser(least, d);
        }
        Tally { sum, least, ..self }
    }
}

// Plate minus required. A cast is whole by the bound.
fn difference(line: CourseLine) -> i64
    requires { T (is_measured line) }
    ensures { result ≡ difference line }
{
    i64::from(line.plate) - line.required as i64
}

// The lesser of two, where there is a first.
fn lesser(least: Option<i64>, d: i64) -> Option<i64>
    ensures { result ≡ lesser least (Some d) }
{
    match least {
        Some(e) => Some(e.min(d)),
        None => Some(d),
    }
}
