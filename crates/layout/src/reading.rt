// What stands at each place of a sheet's bytes, and what they are refused for before any step (document 01,
// "Filling in" and "Order"; document 02, S-8).
ghost use Rattle.std.specs.Prelude.{◌≡◌, ◌+◌, ◌*◌, ◌≤◌, length, drop};
ghost use Rattle.fields.specs.Order.{first_of, reply_unless, answer_code, first_code};
ghost use Rattle.layout.specs.Numbers.{two_in, four_in, figures_in};
ghost use Rattle.layout.specs.Header.{tank_in, count_of, is_length, version_in, read_order};

use crate::version::Version;
use entries::{Entry, MOST_COURSES, Tank};
use fields::{Refusal, WATER};

// The version of these bytes. Refused before any step: 11 for under two bytes, 13, 11, 12, 14, 15.
pub fn version_in(bytes: &[u8]) -> Result<Version, Refusal>
    ensures value { result ≡ reply_unless (first_of (read_order bytes.now)) (version_in bytes.now) }
    ensures code { answer_code result ≡ first_code (read_order bytes.now) }
{
    if bytes.len() < 2 {
        return Err(Refusal::TooFewBytes);
    }
    let length = length_in(bytes);
    let version = Version::for_length(length);
    if !is_length(version, length) {
        return Err(Refusal::BadLength);
    }
    if bytes.len() < 2 + length {
        return Err(Refusal::TooFewBytes);
    }
    if 2 + length < bytes.len() {
        return Err(Refusal::TooManyBytes);
    }
    if bytes[2] != version.number() {
        return Err(Refusal::BadVersion);
    }
    if usize::from(bytes[version.prefix() + 32]) != count_of(version, length) {
        return Err(Refusal::BadCount);
    }
    Ok(version)
}

// n, as the length in the first two bytes gives it.
pub fn count_in(version: Version, bytes: &[u8]) -> usize
    requires { 2 ≤ length bytes.now }
    ensures { result ≡ count_of version (two_in bytes.now) }
{
    count_of(version, length_in(bytes))
}

// The tank. Where version 1 is shorter by a figure, the site follows, so all seven are there to read.
pub fn tank_in(version: Version, bytes: &[u8]) -> Tank
    requires { 31 ≤ length bytes.now }
    ensures { result ≡ tank_in version (drop 3 bytes.now) }
{
    let tank: Tank = entry_at(bytes, 3);
    match version {
        Version::One => Tank {
            gravity: WATER,
            ..tank
        },
        Version::Two => tank,
    }
}

// L, in the first two bytes.
fn length_in(bytes: &[u8]) -> usize
    requires { 2 ≤ length bytes.now }
    ensures { (result ≡ two_in bytes.now) × (result ≤ 65535) }
{
    usize::from(u16::from_be_bytes([bytes[0], bytes[1]]))
}

// The n of L = 58 + 20 × n, or of L = 62 + 20 × n.
fn count_of(version: Version, length: usize) -> usize
    ensures { result ≡ count_of version length }
{
    length.saturating_sub(version.least()) / 20
}

// Not by `contains`, as range.rt of `fields` says.
#[tactic(auto, unfolding(crate::specs::Header::is_length))]
pub(crate) fn is_length(version: Version, length: usize) -> bool
    requires { length ≤ 65535 }
    ensures { result ≡ is_length version length }
{
    let n = count_of(version, length);
    1 <= n && n <= MOST_COURSES && length == version.least() + 20 * n
}

// The entry whose figures begin at this place of the layout, four bytes each. A buffer and a place, since the layout numbers its
// places. Not by `array::from_fn`: what its closure holds would have to be carried from call to call (tried).
pub fn entry_at<const N: usize, E: Entry<N>>(bytes: &[u8], at: usize) -> E
    requires { at + 4 * N ≤ length bytes.now }
    ensures { result ≡ E.entry_of (figures_in N (drop at bytes.now)) }
{
    let mut figures = [0; N];
    for k in 0..N {
        figures[k] = four_at(bytes, at + 4 * k);
    }
    E::with(figures)
}

// At a place of the layout too.
fn four_at(bytes: &[u8], at: usize) -> u32
    requires { at + 4 ≤ length bytes.now }
    ensures { result ≡ four_in (drop at bytes.now) }
{
    u32::from_be_bytes([bytes[at], bytes[at + 1], bytes[at + 2], bytes[at + 3]])
}
