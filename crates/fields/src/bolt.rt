// The bolt chart (document 01, "Anchored"), and the size that the supplier has dropped (document 02, S-10).
ghost use Rattle.std.specs.Prelude.{◌≡◌, T, SomeIff};
ghost use Rattle.fields.specs.Bolt.{in_chart, stress_area, discontinued};

// The tensile stress area, in thousandths of a square inch, of a bolt of this many eighths of an
// inch, for a size that the chart has.
#[tactic(auto, unfolding(crate::specs::Bolt::in_chart, crate::specs::Bolt::stress_area))]
pub fn stress_area(size: u32) -> Option<u32>
    ensures { SomeIff result (T (in_chart size)) (stress_area size) }
{
    match size {
        6 => Some(334),
        7 => Some(462),
        8 => Some(606),
        9 => Some(763),
        10 => Some(969),
        11 => Some(1155),
        12 => Some(1405),
        14 => Some(1900),
        16 => Some(2500),
        _ => None,
    }
}

// Whether this size is no longer to be had. The chart keeps it, for sheets of version 1.
pub fn is_discontinued(size: u32) -> bool
    ensures { result ≡ discontinued size }
{
    size == 6
}
