// The question: is this tank sound? (Document 01, "Filling in" and "Order"; document 02, S-1 and S-3.)
ghost use Rattle.std.specs.Prelude.{◌≡◌, [], ◌∷◌};
ghost use Rattle.std.specs.Result.{ForOk};
ghost use Rattle.fields.specs.Order.{answer_code};
ghost use Rattle.sheet.specs.Complete.{entries_of, entries_in, courses_of, Valid};
ghost use Rattle.claims.specs.Report.{word_of};
ghost use Rattle.claims.specs.Judging.{judged, judged_completed, report_for, report_by, report_with, completed_judge_code, judge_code};
ghost use Rattle.claims.specs.Meets.{JustifiedBy};

use crate::{courses, standing};
use entries::{Entries, Sheet};
use fields::Refusal;
use reports::report::{CourseLine, Judgement, Report, Standing, Word};
use rules::method::Method;
use rules::wind;

// The report on a sheet by the method with this number, 1 for D100 and 2 for API 650 (a number, since any is answered);
// exact fractions bear out its word. Refused: 30, 42, 32, 35, 36, 38, 37.
pub fn judge(method: u32, s: Sheet) -> Judgement
    ensures value { result ≡ judged method s }
    ensures code { answer_code result.answer ≡ judge_code method s }
    ensures justified_by { JustifiedBy method (entries_of s) result }
{
    judge_completed(method, complete::of_sheet(s))
}

// The same, by number too, given what a sheet is asked first: for questions that have its entries already. From bytes that may be
// a refusal of reading, before which 42 would stand: judge those by 1 or 2.
pub fn judge_completed(method: u32, c: Result<Entries, Refusal>) -> Judgement
    requires { ForOk c Valid }
    ensures value { result ≡ judged_completed method c }
    ensures code { answer_code result.answer ≡ completed_judge_code method c }
    ensures justified_by { JustifiedBy method (entries_in c) result }
{
    match report_for(method, c) {
        Ok(report) => Judgement {
            answer: Ok(()),
            report,
        },
        Err(refusal) => Judgement {
            answer: Err(refusal),
            report: Report::blank(),
        },
    }
}

// By number still, since 42 stands between 30 and the other refusals.
fn report_for(method: u32, c: Result<Entries, Refusal>) -> Result<Report, Refusal>
    requires { ForOk c Valid }
    ensures { result ≡ report_for method c }
{
    match c {
        Ok(e) => report_by(Method::try_from(method)?, e),
        Err(refusal) => Err(after_thirty(method, refusal)),
    }
}

// 42, where no method has the number, stands between 30 and the other refusals (document 02, S-3).
fn after_thirty(method: u32, refusal: Refusal) -> Refusal
    ensures { Err result ≡ report_for method (Err refusal) }
{
    match refusal {
        Refusal::Unreachable => refusal,
        _ => match Method::try_from(method) {
            Ok(_) => refusal,
            Err(other) => other,
        },
    }
}

// The report on the entries of a complete sheet. Refused: 37.
fn report_by(method: Method, e: Entries) -> Result<Report, Refusal>
    requires { Valid e }
    ensures { result ≡ report_by method e }
{
    if e.height < e.tank.level {
        return Err(Refusal::WaterAboveShell);
    }
    Ok(report(method, e))
}

fn report(method: Method, e: Entries) -> Report
    requires { Valid e }
    ensures { result ≡ report_with method e }
{
    let site = e.site;
    let n = e.count;
    let pressure = wind::pressure(site.exposure, site.importance, site.speed);
    let moment = wind::moment(pressure, e.tank.diameter, e.height);
    let lines = courses::lines(method, &e);
    let standing = standing::standing(&e, moment);
    let uses = standing::uses(standing);
    let word = word(&lines[..n], standing);
    Report {
        lines,
        count: n,
        pressure,
        moment,
        standing,
        uses,
        word,
    }
}

// Sound when every course and both rules of its way of standing hold.
#[tactic(auto, unfolding(claims::specs::Report::word_of))]
fn word(lines: &[CourseLine], standing: Standing) -> Word
    ensures { result ≡ word_of lines.now standing }
{
    if courses::all_hold(lines) && standing::stands(standing) {
        Word::Sound
    } else {
        Word::Short
    }
}
