// How far a tally has come, and a part of the file more.
ghost use Rattle.std.specs.Prelude.{◌≡◌, ◌≤◌, ◌<◌, ◌+◌, length, false};
ghost use Rattle.tally.specs.Tally.{own_length, stops, tallied, AddsUp};
ghost use Rattle.tally.specs.Parts.{start, passed, is_ready, has_bad_length, after_part, reply_of, Within, Measured};

use crate::tally::Tally;
use layout::reading;
use reports::report::Judgement;

// "A file of up to 10,000 sheets".
const MOST_SHEETS: u64 = 10000;

// `room` is how many sheets may still be read: none after a stop.
#[derive(Clone, Copy)]
pub(crate) struct Progress {
    pub tally: Tally,
    pub room: u64,
}

// After a part: how far the tally has come, and the place of what is left of the part.
#[derive(Clone, Copy)]
pub(crate) struct Taken {
    pub progress: Progress,
    pub used: usize,
}

impl Progress {
    pub(crate) fn start() -> Progress
        ensures { result ≡ start }
    {
        let tally = Tally {
            read: 0,
            sound: 0,
            short: 0,
            refused: 0,
            sum: 0,
            least: None,
        };
        Progress {
            tally,
            room: MOST_SHEETS,
        }
    }

    // The sheets of a part of the file that are whole; where nothing comes after it, the last one however cut. A length that no sheet has
    // ends it at once, whatever comes.
    pub(crate) fn take(self, part: &[u8], ended: bool) -> Taken
        requires { Within self }
        ensures within { Within result.progress }
        ensures used { result.used ≤ length part.now }
        ensures short { ended ≡ false → 0 < result.progress.room → length part.now ≤ result.used + 65536 }
        ensures value { reply_of result part.now ≡ after_part self.room self.tally ended part.now }
    {
        let mut progress = self;
        let mut rest = part;
        while progress.room > 0 && is_ready(rest, ended) {
            let (sheet, after) = rest.split_at(own_length(rest).min(rest.len()));
            let judgement = marking::judge_bytes(sheet);
            progress = progress.passed(&judgement);
            rest = after;
        }
        if progress.room == 0 {
            return Taken {
                progress,
                used: part.len(),
            };
        }
        Taken {
            progress,
            used: part.len() - rest.len(),
        }
    }

    fn passed(self, j: &Judgement) -> Progress
        requires within { Within self }
        requires room { 0 < self.room }
        requires measured { Measured j.now.report }
        ensures { result ≡ passed self j.now }
    {
        let tally = self.tally.counted(j);
        let room = if stops(j) { 0 } else { self.room - 1 };
        Progress { tally, room }
    }
}

// The tally of a file whose bytes are all there.
pub fn of_bytes(file: &[u8]) -> Tally
    ensures value { result ≡ tallied file.now }
    ensures adds_up { AddsUp result }
{
    Progress::start().take(file, true).progress.tally
}

// The refusals after which the file can't go on: what follows them has no place.
const TOO_FEW_BYTES: u32 = 11;

const BAD_LENGTH: u32 = 13;

fn stops(j: &Judgement) -> bool
    ensures { result ≡ stops j.now }
{
    match j.answer {
        Ok(()) => false,
        Err(refusal) => {
            let number = refusal.code().number;
            number == TOO_FEW_BYTES || number == BAD_LENGTH
        }
    }
}

// Whether the sheet that begins here is read now.
fn is_ready(rest: &[u8], ended: bool) -> bool
    ensures value { result ≡ is_ready ended rest.now }
    ensures short { ended ≡ false → result ≡ false → length rest.now ≤ 65536 }
{
    !rest.is_empty() && (ended || own_length(rest) <= rest.len() || has_bad_length(rest))
}

// A length by itself is 13 where no sheet has it, and else 11.
fn has_bad_length(rest: &[u8]) -> bool
    ensures { result ≡ has_bad_length rest.now }
{
    if rest.len() < 2 {
        return false;
    }
    match reading::version_in(&rest[..2]) {
        Ok(_) => false,
        Err(refusal) => refusal.code().number == BAD_LENGTH,
    }
}

// 2 + L, of as much of L as is there.
fn own_length(rest: &[u8]) -> usize
    ensures value { result ≡ own_length rest.now }
    ensures most { result ≤ 65537 }
{
    let high = rest.first().copied().unwrap_or(0);
    let low = rest.get(1).copied().unwrap_or(0);
    2 + usize::from(u16::from_be_bytes([high, low]))
}
