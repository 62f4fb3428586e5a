// The refusals (document 01, "Refusals that come from the input" and "from the state"; document 02: 38 of S-1,
// 39 of S-10, 40 and 41 of S-2, 42 of S-3, 43 of S-6, 44 and 45 of S-9).
ghost use Rattle.std.specs.Prelude.{◌≡◌, Some};
ghost use Rattle.fields.specs.Refusal.{code_of, plain, printed_code};

use std::error::Error;
use std::fmt;

#[derive(Clone, Copy, Debug, PartialEq, Eq)]
pub enum Refusal {
    TooFewBytes,
    TooManyBytes,
    BadLength,
    BadVersion,
    BadCount,
    // The number of the first field that is outside its range.
    OutOfRange(u32),
    AllowanceNotBelowPlate,
    BadAnchors,
    BufferTooShort,
    Unreachable,
    TankStated,
    NoTank,
    CoursesFull,
    ShellTooHigh,
    NoCourse,
    NoSite,
    WaterAboveShell,
    AnchorsUnstated,
    SizeDiscontinued,
    // A figure is outside its range, where the documents give no field with it.
    FigureOutOfRange,
    BadSiteClass,
    BadMethod,
    ShellUplift,
    NotSlender,
    MomentTooLarge,
}

// A refusal as the documents have it: its number, and the field that it gives, or 0 where it gives none (no Option: the
// numbers are what is printed and compared).
#[derive(Clone, Copy, Debug, PartialEq, Eq)]
pub struct Code {
    pub number: u32,
    pub field: u32,
}

// A refusal that gives no field.
fn plain(number: u32) -> Code
    ensures { result ≡ plain number }
{
    Code { number, field: 0 }
}

impl Refusal {
    pub fn code(self) -> Code
        ensures { result ≡ code_of self }
    {
        match self {
            Refusal::TooFewBytes => plain(11),
            Refusal::TooManyBytes => plain(12),
            Refusal::BadLength => plain(13),
            Refusal::BadVersion => plain(14),
            Refusal::BadCount => plain(15),
            Refusal::OutOfRange(field) => Code { number: 16, field },
            Refusal::AllowanceNotBelowPlate => plain(17),
            Refusal::BadAnchors => plain(18),
            Refusal::BufferTooShort => plain(19),
            Refusal::Unreachable => plain(30),
            Refusal::TankStated => plain(31),
            Refusal::NoTank => plain(32),
            Refusal::CoursesFull => plain(33),
            Refusal::ShellTooHigh => plain(34),
            Refusal::NoCourse => plain(35),
            Refusal::NoSite => plain(36),
            Refusal::WaterAboveShell => plain(37),
            Refusal::AnchorsUnstated => plain(38),
            Refusal::SizeDiscontinued => plain(39),
            Refusal::FigureOutOfRange => plain(40),
            Refusal::BadSiteClass => plain(41),
            Refusal::BadMethod => plain(42),
            Refusal::ShellUplift => plain(43),
            Refusal::NotSlender => plain(44),
            Refusal::MomentTooLarge => plain(45),
        }
    }
}

// Its line, without the line end. Left open: what `{}` with options (a width) writes, since only `write!` without is known; and,
// as for each Display here, whether a write fails.
impl fmt::Display for Refusal {
    ghost output = { λ r. Some (printed_code (code_of r)) };

    fn fmt<W: fmt::Write>(&self, f: &mut fmt::Formatter<W>) -> fmt::Result {
        let number = self.code().number;
        match self {
            Refusal::OutOfRange(field) => write!(f, "refused {number} {field}"),
            _ => write!(f, "refused {number}"),
        }
    }
}

impl Error for Refusal {}
