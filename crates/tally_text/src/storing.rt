// The six lines of a tally, each appended to a text; the bounds are those of numbers of twenty digits.
ghost use Rattle.std.specs.Prelude.{◌≡◌, [], ◌∷◌, ◌+◌, ◌≤◌, length};
ghost use Rattle.lists.specs.Ascii.{ascii};
ghost use Rattle.words.specs.Decimal.{decimal, signed};
ghost use Rattle.words.specs.Stored.{Stored, HasRoom, Appends};
ghost use Rattle.lines.specs.Text.{line};
ghost use Rattle.tally_text.specs.Lines.{least_word, tally_lines, tally_text, most_lines, most_tally, LinesWithin};

use tally::Tally;
use words::Text;

fn put_count<'a>(to: Text<'a>, name: &[u8], n: u64) -> Text<'a>
    requires { HasRoom to (length name.now + 22) }
    ensures { Appends (length name.now + 22) to.entry (line (name.now ∷ decimal n ∷ [])) result }
{
    to.put(name).put_figure(n).put(b"\n")
}

fn put_sum<'a>(to: Text<'a>, sum: i64) -> Text<'a>
    requires { HasRoom to 26 }
    ensures { Appends 26 to.entry (line (ascii "sum" ∷ signed sum ∷ [])) result }
{
    to.put(b"sum").put_signed(sum).put(b"\n")
}

fn put_least<'a>(to: Text<'a>, least: Option<i64>) -> Text<'a>
    requires { HasRoom to 28 }
    ensures { Appends 28 to.entry (line (ascii "least" ∷ least_word least ∷ [])) result }
{
    let name = to.put(b"least");
    match least {
        Some(d) => name.put_signed(d).put(b"\n"),
        None => name.put(b" none\n"),
    }
}

fn put_tally<'a>(to: Text<'a>, t: Tally) -> Text<'a>
    requires { HasRoom to most_tally }
    ensures appends { Appends most_tally to.entry (tally_text t) result }
    ensures lines { LinesWithin (tally_lines t) most_lines }
{
    let read = put_count(to, b"read", t.read);
    let sound = put_count(read, b"sound", t.sound);
    let short = put_count(sound, b"short", t.short);
    let refused = put_count(short, b"refused", t.refused);
    put_least(put_sum(refused, t.sum), t.least)
}

// The whole text, at the start of the buffer.
pub(crate) fn put_text(out: &mut [u8], t: Tally) -> usize
    requires { most_tally ≤ length out.old }
    ensures upper_bound { result ≤ most_tally }
    ensures stored { Stored out.old 0 (tally_text t) out.new result }
    ensures lines { LinesWithin (tally_lines t) most_lines }
{
    let mut to = Text::new(out);
    fill(&mut to, t);
    to.written()
}

// Through a reference, as in storing.rt of `lines`.
fn fill(to: &mut Text<'_>, t: Tally)
    requires { HasRoom to.old most_tally }
    ensures appends { Appends most_tally to.old (tally_text t) to.new }
    ensures lines { LinesWithin (tally_lines t) most_lines }
{
    *to = put_tally(std::mem::take(to), t);
}
