// The charts of the site coefficients (source 001, Tables 3 and 4). `as` widens, as in hoop.rt of `rules`.
ghost use Rattle.std.specs.Prelude.{◌≡◌, ◌*◌, ◌≤◌, ◌<◌, ◌+◌};
ghost use Rattle.ground.specs.Chart.{chart, interpolated, coefficient_of};
ghost use Rattle.ground.specs.Class.{letter_of};
ghost use Rattle.ground.specs.Motion.{most_mapped};

use crate::class::SiteClass;

// Coefficients in tenths, a row for each class from A to E, and the thousandths of g from column to column; the first
// column stands at one step.
// Never compared or printed.
#[derive(Clone, Copy)]
pub(crate) struct SiteChart {
    step: u8,
    rows: [[u8; 5]; 5],
}

pub(crate) const FA: SiteChart = SiteChart {
    step: 250,
    rows: [
        [8, 8, 8, 8, 8],
        [10, 10, 10, 10, 10],
        [12, 12, 11, 10, 10],
        [16, 14, 12, 11, 10],
        [25, 17, 12, 9, 9],
    ],
};

pub(crate) const FV: SiteChart = SiteChart {
    step: 100,
    rows: [
        [8, 8, 8, 8, 8],
        [10, 10, 10, 10, 10],
        [17, 16, 15, 14, 13],
        [24, 20, 18, 16, 15],
        [35, 32, 28, 24, 24],
    ],
};

impl SiteChart {
    // A map value adjusted for the site class, F * S (source 001, Eq 14-1 and 14-2), over 10 * step * 1000.
    pub(crate) fn adjusted(self, class: SiteClass, mapped: u32) -> u32
        requires { mapped ≤ most_mapped }
        ensures { result ≡ coefficient_of (chart self.step self.rows) (letter_of class) mapped * mapped }
    {
        let rows = self.rows;
        coefficient(rows[class.row()], self.step, mapped) * mapped
    }
}

// The coefficient of a class with these figures at x thousandths of g, over 10 * step. Figures and step are
// bytes, so that no product wraps.
fn coefficient(figures: [u8; 5], step: u8, x: u32) -> u32
    ensures value { result ≡ interpolated step figures x }
    ensures upper_bound { result ≤ 130050 }
{
    let s = step as u32;
    // Up to the first column, and from the last one on, the chart's rule itself.
    if x <= s {
        return times(figures[0], s);
    }
    if 5 * s <= x {
        return times(figures[4], s);
    }
    // A usize is not From a u32.
    let next = (x / s) as usize;
    let at = next - 1;
    let past = x % s;
    let left = times(figures[at], s - past);
    let right = times(figures[next], past);
    left + right
}

// A figure times a number of thousandths, at most 255.
fn times(tenths: u8, x: u32) -> u32
    requires { x ≤ 255 }
    ensures value { result ≡ tenths * x }
    ensures upper_bound { result ≤ 65025 }
{
    tenths as u32 * x
}
