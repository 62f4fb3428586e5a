// The fields' ranges (document 01, "Fields and their ranges").
ghost use Rattle.std.specs.Prelude.{◌≡◌};
ghost use Rattle.fields.specs.Range.{range, within, between};

// The ends of each field's range, by the field's number; place 0 stands for no field, and is empty.
const RANGES: [(u32, u32); 21] = [
    (1, 0),
    (12000, 240000),
    (1200, 76800),
    (1, 10000000),
    (100, 500),
    (0, 250),
    (30000, 50000),
    (60, 150),
    (50, 150),
    (100, 125),
    (0, 500),
    (0, 1000000000),
    (6, 200),
    (0, 300000),
    (0, 16),
    (1200, 14400),
    (100, 2000),
    (0, 250),
    (10000, 40000),
    (50, 100),
    (1000, 1300),
];

// The gravity of water (field 20), in thousandths.
pub const WATER: u32 = 1000;

// The one field that may also be 0: N, the number of anchors.
const ANCHORS: u32 = 12;

// Whether a figure is in the range of the field with this number, as the documents have it and 16 gives it. A number
// that is no field's has an empty range. Two tests and no `||`, by which the proof would go by the side that was true.
pub fn in_range(field: u32, figure: u32) -> bool
    ensures { result ≡ within (range field) figure }
{
    if field != ANCHORS {
        return in_span(field, figure);
    }
    if figure == 0 {
        return true;
    }
    in_span(field, figure)
}

// Whether a figure is between the ends of the field's range, by its number too. (A usize is not From a u32; `contains`
// would be two calls, whose equations go by `partial_cmp`.)
fn in_span(field: u32, figure: u32) -> bool
    ensures { result ≡ between (range field) figure }
{
    let Some(&(least, greatest)) = RANGES.get(field as usize) else {
        return false;
    };
    least <= figure && figure <= greatest
}
