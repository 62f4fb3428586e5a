// Tank, site and anchors beside a number of courses.
ghost use Rattle.std.specs.Prelude.{◌≡◌};
ghost use Rattle.fields.specs.Order.{clear};
ghost use Rattle.flaws.specs.Flaws.{tank_flaws};
ghost use Rattle.parts.specs.Parts.{site_clear, anchors_clear, parts_reachable};

use entries::{Anchors, Site, Tank};

// Whether tank, site and anchors can stand beside n courses. Before the tank no other step is accepted.
pub fn parts_reachable(
    tank: Option<Tank>,
    site: Option<Site>,
    anchors: Option<Anchors>,
    n: usize,
) -> bool
    ensures { result ≡ parts_reachable tank site anchors n }
{
    match tank {
        None => site.is_none() && anchors.is_none() && n == 0,
        Some(t) => { tank_clear(t) && site_clear(site) && anchors_clear(t.diameter, anchors) }
    }
}

// Alike in shape, and to `is_clear` of slots.rt: each asks its own flaw, and one for all would be no shorter.
#[tactic(auto, using(fields::proofs::OrderLaws::clear_of))]
fn tank_clear(t: Tank) -> bool
    ensures { result ≡ clear (tank_flaws t) }
{
    flaws::tank_flaw(t).is_ok()
}

#[tactic(auto, using(fields::proofs::OrderLaws::clear_of))]
fn site_clear(site: Option<Site>) -> bool
    ensures { result ≡ site_clear site }
{
    site.is_none_or(|x| flaws::site_flaw(x).is_ok())
}

#[tactic(auto, using(fields::proofs::OrderLaws::clear_of))]
fn anchors_clear(diameter: u32, anchors: Option<Anchors>) -> bool
    ensures { result ≡ anchors_clear diameter anchors }
{
    anchors.is_none_or(|a| flaws::anchors_flaw(diameter, a).is_ok())
}
