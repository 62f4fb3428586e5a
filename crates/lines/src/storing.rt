// The lines of a report or a refusal (document 01, "The example tank"), each appended to a text; the bounds are
// those of numbers of twenty digits. Words and digits letter by letter, since by `write!` a text misses the bar of speed
// (store.rt of `words`). `as` widens, as in hoop.rt of `rules`.
ghost use Rattle.std.specs.Prelude.{[], ◌∷◌, map, ◌+◌, ◌*◌, ◌≤◌, length};
ghost use Rattle.fields.specs.Refusal.{code_of};
ghost use Rattle.stability.specs.Earthquake.{uplift_word};
ghost use Rattle.rules.specs.Verdict.{verdict_word};
ghost use Rattle.lines.specs.Text.{line, more, text, course_line, course_lines, wind_line, pull_line, anchor_line, self_line, standing_lines, tank_line, report_lines, code_figures, refusal_line, text_of, most_text};
ghost use Rattle.words.specs.Decimal.{decimal};
ghost use Rattle.words.specs.Stored.{Stored, HasRoom, Appends};

use fields::{Code, Refusal};
use reports::report::{AnchorChecks, CourseLine, Judgement, Report, SelfChecks, Standing, Word};
use rules::verdict::Verdict;
use stability::earthquake::Uplift;
use words::Text;

// With a blank in front.
fn put_verdict<'a>(to: Text<'a>, v: Verdict) -> Text<'a>
    requires { HasRoom to 6 }
    ensures { Appends 6 to.entry (0x20 ∷ verdict_word v) result }
{
    match v {
        Verdict::Holds(_) => to.put(b" ok"),
        Verdict::Short(_) => to.put(b" short"),
    }
}

fn put_course<'a>(to: Text<'a>, number: u64, c: CourseLine) -> Text<'a>
    requires { HasRoom to 97 }
    ensures { Appends 97 to.entry (line (course_line number c)) result }
{
    let figures = to
        .put(b"course")
        .put_figure(number)
        .put_figure(c.need)
        .put_figure(c.required)
        .put_figure(c.plate as u64);
    put_verdict(figures, c.verdict).put(b"\n")
}

fn put_courses<'a>(mut to: Text<'a>, lines: &[CourseLine]) -> Text<'a>
    requires { HasRoom to (97 * length lines.now) }
    ensures { Appends (97 * length lines.now) to.entry (text (course_lines 1 lines.now)) result }
{
    for (i, c) in lines.iter().enumerate() {
        to = put_course(to, i as u64 + 1, *c);
    }
    to
}

fn put_wind<'a>(to: Text<'a>, pressure: u64, moment: u64) -> Text<'a>
    requires { HasRoom to 47 }
    ensures { Appends 47 to.entry (line (wind_line pressure moment)) result }
{
    to.put(b"wind")
        .put_figure(pressure)
        .put_figure(moment)
        .put(b"\n")
}

// With a blank in front, and the line end.
fn put_uplift<'a>(to: Text<'a>, u: Uplift) -> Text<'a>
    requires { HasRoom to 6 }
    ensures { Appends 6 to.entry (more (uplift_word u ∷ [])) result }
{
    match u {
        Uplift::None => to.put(b" none\n"),
        Uplift::Lift => to.put(b" lift\n"),
        Uplift::Over => to.put(b" over\n"),
    }
}

fn put_self<'a>(to: Text<'a>, c: SelfChecks) -> Text<'a>
    requires { HasRoom to 49 }
    ensures { Appends 49 to.entry (line (self_line c)) result }
{
    let wind = put_verdict(to.put(b"self wind"), c.wind);
    put_uplift(wind.put(b" resist").put_figure(c.resistance), c.uplift)
}

fn put_pulls<'a>(to: Text<'a>, c: AnchorChecks) -> Text<'a>
    requires { HasRoom to 49 }
    ensures { Appends 49 to.entry (line (pull_line c)) result }
{
    to.put(b"pull")
        .put_signed(c.wind_pull)
        .put_signed(c.quake_pull)
        .put(b"\n")
}

fn put_anchors<'a>(to: Text<'a>, c: AnchorChecks) -> Text<'a>
    requires { HasRoom to 37 }
    ensures { Appends 37 to.entry (line (anchor_line c)) result }
{
    let spacing = put_verdict(to.put(b"anchors spacing"), c.spacing);
    put_verdict(spacing.put(b" strength"), c.strength).put(b"\n")
}

fn put_standing<'a>(to: Text<'a>, s: Standing) -> Text<'a>
    requires { HasRoom to 86 }
    ensures { Appends 86 to.entry (text (standing_lines s)) result }
{
    match s {
        Standing::SelfAnchored(c) => put_self(to, c),
        Standing::Anchored(c) => put_anchors(put_pulls(to, c), c),
    }
}

fn put_tank<'a>(to: Text<'a>, w: Word) -> Text<'a>
    requires { HasRoom to 11 }
    ensures { Appends 11 to.entry (line (tank_line w)) result }
{
    match w {
        Word::Sound => to.put(b"tank sound\n"),
        Word::Short => to.put(b"tank short\n"),
    }
}

fn put_report<'a>(to: Text<'a>, r: Report) -> Text<'a>
    requires { HasRoom to most_text }
    ensures { Appends most_text to.entry (text (report_lines r)) result }
{
    let lines: &[CourseLine] = &r.lines;
    let held = r.count.min(lines.len());
    let courses = put_courses(to, &lines[..held]);
    let wind = put_wind(courses, r.pressure, r.moment);
    let standing = put_standing(wind, r.standing);
    put_tank(standing, r.word)
}

// The refusal that prints its field: a field outside its range. By number, as the text's definition goes: by a match on the
// refusal the proof would go through all of them (tried).
const OUT_OF_RANGE: u32 = 16;

// The number, and for 16 the field, each with a blank in front, and the line end.
fn put_code<'a>(to: Text<'a>, p: Code) -> Text<'a>
    requires { HasRoom to 43 }
    ensures { Appends 43 to.entry (more (map decimal (code_figures p))) result }
{
    let number = to.put_figure(p.number as u64);
    if p.number == OUT_OF_RANGE {
        return number.put_figure(p.field as u64).put(b"\n");
    }
    number.put(b"\n")
}

fn put_refusal<'a>(to: Text<'a>, refusal: Refusal) -> Text<'a>
    requires { HasRoom to most_text }
    ensures { Appends most_text to.entry (line (refusal_line (code_of refusal))) result }
{
    put_code(to.put(b"refused"), refusal.code())
}

fn put_judgement<'a>(to: Text<'a>, j: Judgement) -> Text<'a>
    requires { HasRoom to most_text }
    ensures { Appends most_text to.entry (text_of j) result }
{
    match j.answer {
        Ok(()) => put_report(to, j.report),
        Err(refusal) => put_refusal(to, refusal),
    }
}

// The whole text, at the start of the buffer.
pub fn put_text(out: &mut [u8], j: Judgement) -> usize
    requires { most_text ≤ length out.old }
    ensures upper_bound { result ≤ most_text }
    ensures stored { Stored out.old 0 (text_of j) out.new result }
{
    let mut to = Text::new(out);
    fill(&mut to, j);
    to.written()
}

// Through a reference: of a text that is taken and handed back by value, a caller does not learn what the buffer holds when
// the loan ends.
fn fill(to: &mut Text<'_>, j: Judgement)
    requires { HasRoom to.old most_text }
    ensures { Appends most_text to.old (text_of j) to.new }
{
    *to = put_judgement(std::mem::take(to), j);
}
