// Refusal 30: whether some run leaves a sheet that is handed in (document 01, "Refusals that come from
// the state"; document 02, S-10).
ghost use Rattle.std.specs.Prelude.{◌≡◌, ◌↔◌, T};
ghost use Rattle.sheet.specs.Steps.{consistent, fits_version_1, size_reachable, reachable};
ghost use Rattle.sheet.specs.Runs.{LeftByRun};

use entries::{Anchors, Sheet, Site, Tank};
use fields::WATER;
use parts::{slots, stated};

// Whether some run of steps, and of readings of version 1, leaves this sheet.
pub fn is_reachable(s: Sheet) -> bool
    ensures value { result ≡ reachable s }
    ensures left_by_run { T result ↔ LeftByRun s }
{
    is_consistent(s) && size_reachable(s.tank, s.site, s.anchors, s.count)
}

// Whether steps of either version leave it.
#[tactic(auto, unfolding(crate::specs::Steps::consistent))]
fn is_consistent(s: Sheet) -> bool
    ensures { result ≡ consistent s }
{
    slots::slots_reachable(s.courses, s.count)
        && stated::parts_reachable(s.tank, s.site, s.anchors, s.count)
}

// Whether the size of these anchors can stand beside the rest: one that is discontinued came with a sheet of version 1.
fn size_reachable(
    tank: Option<Tank>,
    site: Option<Site>,
    anchors: Option<Anchors>,
    n: usize,
) -> bool
    ensures { result ≡ size_reachable tank site anchors n }
{
    match anchors {
        None => true,
        Some(a) => !fields::is_discontinued(a.size) || fits_version_1(tank, site, n),
    }
}

fn fits_version_1(tank: Option<Tank>, site: Option<Site>, n: usize) -> bool
    ensures { result ≡ fits_version_1 tank site n }
{
    match tank {
        None => false,
        Some(t) => t.gravity == WATER && site.is_some() && n != 0,
    }
}
