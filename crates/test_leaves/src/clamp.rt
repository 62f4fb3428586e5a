// An argument brought into the range that a leaf asks for. The oracle writes none outside it, so on
// its vectors both functions return x.
ghost use Rattle.std.specs.Prelude.{◌≤◌, ◌<◌, ◌^◌};

// The ends of the fields' ranges (document 01, "Fields and their ranges"): written again, so that this program tests those of
// `fields`.
pub(crate) const DIAMETER: (u64, u64) = (12000, 240000);

pub(crate) const LEVEL: (u64, u64) = (1200, 76800);

pub(crate) const WEIGHT: (u64, u64) = (1, 10000000);

pub(crate) const YIELD: (u64, u64) = (30000, 50000);

pub(crate) const SPEED: (u64, u64) = (60, 150);

pub(crate) const EXPOSURE: (u64, u64) = (50, 150);

pub(crate) const IMPORTANCE: (u64, u64) = (100, 125);

pub(crate) const VERTICAL: (u64, u64) = (0, 500);

pub(crate) const MOMENT: (u64, u64) = (0, 1000000000);

pub(crate) const ANCHORS: (u64, u64) = (6, 200);

pub(crate) const CIRCLE: (u64, u64) = (0, 300000);

pub(crate) const PLATE: (u64, u64) = (100, 2000);

pub(crate) const ALLOWANCE: (u64, u64) = (0, 250);

pub(crate) const STRESS: (u64, u64) = (10000, 40000);

pub(crate) const EFFICIENCY: (u64, u64) = (50, 100);

pub(crate) const GRAVITY: (u64, u64) = (1000, 1300);

// h or Hs.
pub(crate) const HEIGHT: (u64, u64) = (0, 76800);

// The bottom plate, and a course's plate, less its allowance.
pub(crate) const NET_BOTTOM: (u64, u64) = (0, 500);

pub(crate) const NET_PLATE: (u64, u64) = (1, 2000);

// The bolt circle of an anchored tank, and the stress area of a bolt.
pub(crate) const ANCHORED_CIRCLE: (u64, u64) = (1, 300000);

pub(crate) const AREA: (u64, u64) = (1, 2500);

// The coefficient of buckling (document 02, S-6).
pub(crate) const COEFFICIENT: (u64, u64) = (0, 7153);

// x between the ends of the range: it fits, which `as` asks to be proved and TryFrom would test.
pub(crate) fn field(x: u64, range: (u64, u64)) -> u32
    requires least_le_most { range.0 ≤ range.1 }
    requires most_bound { range.1 < 2 ^ 32 }
    ensures { (range.0 ≤ result) × (result ≤ range.1) }
{
    let (least, most) = range;
    x.clamp(least, most) as u32
}

// x as any figure.
pub(crate) fn figure(x: u64) -> u32 {
    u32::try_from(x).unwrap_or(u32::MAX)
}
