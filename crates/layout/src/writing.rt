// A sheet's bytes stored in a buffer, part by part (document 01, "Filling in"; document 02, S-8: version 2 alone is written). Each part has
// its place in the layout, a number, so it goes beside the buffer; a count of courses is at most 12, for its length to be one.
ghost use Rattle.std.specs.Prelude.{◌≡◌, ◌+◌, ◌*◌, ◌≤◌, length};
ghost use Rattle.std.proofs.lemmas.List.Edits.{sets};
ghost use Rattle.layout.specs.Numbers.{four, fours};
ghost use Rattle.layout.specs.Layout.{prefix_of, tail_head, courses_figures};

use crate::version::Version;
use entries::{Anchors, Course, Entry, Site, Tank};

// Length, version and tank of a sheet with n courses.
pub fn put_prefix(out: &mut [u8], tank: Tank, n: usize)
    requires { (31 ≤ length out.old) × (n ≤ 12) }
    ensures { out.new ≡ sets out.old 0 (prefix_of Version.Two n tank) }
{
    let length = 62 + 20 * n;
    // By `to_be_bytes` it would have to be a u16 first.
    out[0] = (length / 256 % 256) as u8;
    out[1] = (length % 256) as u8;
    out[2] = 2;
    put_fours(out, 3, &tank.figures());
}

// Site, anchors and n, where the tail starts.
pub fn put_tail_head(out: &mut [u8], at: usize, site: Site, anchors: Anchors, n: usize)
    requires { (at + 33 ≤ length out.old) × (n ≤ 12) }
    ensures { out.new ≡ sets out.old at (tail_head site anchors n) }
{
    put_fours(out, at, &site.figures());
    put_fours(out, at + 20, &anchors.figures());
    // At most 12, which a cast keeps.
    out[at + 32] = n as u8;
}

// The courses, from a place on.
pub fn put_courses(out: &mut [u8], at: usize, courses: &[Course])
    requires { at + 20 * length courses.now ≤ length out.old }
    ensures { out.new ≡ sets out.old at (fours (courses_figures courses.now)) }
{
    for (i, &c) in courses.iter().enumerate() {
        put_fours(out, at + 20 * i, &c.figures());
    }
}

// The figures, four bytes each.
fn put_fours(out: &mut [u8], at: usize, figures: &[u32])
    requires { at + 4 * length figures.now ≤ length out.old }
    ensures { out.new ≡ sets out.old at (fours figures.now) }
{
    for (i, &x) in figures.iter().enumerate() {
        put_four(out, at + 4 * i, x);
    }
}

fn put_four(out: &mut [u8], at: usize, x: u32)
    requires { at + 4 ≤ length out.old }
    ensures { out.new ≡ sets out.old at (four x) }
{
    out[at..at + 4].copy_from_slice(&x.to_be_bytes());
}
