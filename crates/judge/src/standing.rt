// The tank's way of standing: self-anchored, or with the anchors given. `as` widens, as in hoop.rt of `rules`. Entries and the
// wind's moment: `standing` hands both on to one of two, so no struct is made of them.
ghost use Rattle.std.specs.Prelude.{◌≡◌, ◌≤◌, ◌<◌};
ghost use Rattle.rules.specs.Bounds.{most_moment};
ghost use Rattle.sheet.specs.Complete.{Valid};
ghost use Rattle.claims.specs.Figures.{resistance_on};
ghost use Rattle.claims.specs.Report.{self_checks, anchor_checks, standing_of, checks_of, stands, uses_of};

use entries::Entries;
use reports::report::{AnchorChecks, Checks, SelfChecks, Standing, Uses};
use stability::anchors::DeadWeight;
use stability::{anchors, earthquake};

// T, the resistance to overturning by earthquake, in foot-pounds.
fn resistance(e: &Entries) -> u64
    requires { Valid e.now }
    ensures { result ≡ resistance_on e.now.tank e.now.site }
{
    let tank = e.tank;
    let shell = earthquake::shell_weight(tank.weight, e.site.vertical, tank.diameter);
    let net = tank.plate - tank.allowance;
    let root_yield = earthquake::root_yield(tank.fy, tank.gravity);
    let bottom = earthquake::bottom_weight(
        net,
        root_yield,
        tank.level,
        tank.diameter,
        tank.gravity,
    );
    earthquake::resistance(tank.diameter, shell, bottom)
}

fn self_checks(e: &Entries, moment: u64) -> SelfChecks
    requires valid { Valid e.now }
    requires moment_le_most_moment { moment ≤ most_moment }
    ensures { result ≡ self_checks e.now.tank e.now.site moment }
{
    let wind = anchors::self_wind(moment, e.tank.weight, e.tank.diameter);
    let resistance = resistance(e);
    let uplift = earthquake::uplift_of(e.site.moment, resistance);
    let quake = earthquake::check(e.site.moment, resistance);
    SelfChecks {
        wind,
        resistance,
        uplift,
        quake,
    }
}

fn anchor_checks(e: &Entries, moment: u64) -> AnchorChecks
    requires valid { Valid e.now }
    requires number_nonzero { 0 < e.now.anchors.number }
    requires moment_le_most_moment { moment ≤ most_moment }
    ensures { result ≡ anchor_checks e.now.tank e.now.site e.now.anchors moment }
{
    let tank = e.tank;
    let site = e.site;
    let a = e.anchors;
    let wind_weight = DeadWeight::whole(tank.weight);
    let wind_pull = anchors::pull(moment, wind_weight, a.circle, a.number);
    let quake_weight = DeadWeight::reduced(tank.weight, site.vertical);
    let quake_pull = anchors::pull(site.moment as u64, quake_weight, a.circle, a.number);
    let spacing = anchors::spacing(a.circle, a.number);
    let larger = anchors::larger(wind_pull, quake_pull);
    let area = fields::stress_area(a.size).unwrap();
    let strength = anchors::strength(larger, area);
    AnchorChecks {
        wind_pull,
        quake_pull,
        spacing,
        strength,
    }
}

pub(crate) fn standing(e: &Entries, moment: u64) -> Standing
    requires valid { Valid e.now }
    requires moment_le_most_moment { moment ≤ most_moment }
    ensures { result ≡ standing_of e.now.tank e.now.site e.now.anchors moment }
{
    if e.anchors.number == 0 {
        return Standing::SelfAnchored(self_checks(e, moment));
    }
    Standing::Anchored(anchor_checks(e, moment))
}

fn two_checks(s: Standing) -> Checks
    ensures { result ≡ checks_of s }
{
    match s {
        Standing::SelfAnchored(c) => Checks {
            first: c.wind,
            second: c.quake,
        },
        Standing::Anchored(c) => Checks {
            first: c.spacing,
            second: c.strength,
        },
    }
}

// Whether both hold.
pub(crate) fn stands(s: Standing) -> bool
    ensures { result ≡ stands s }
{
    let checks = two_checks(s);
    checks.first.holds() && checks.second.holds()
}

pub(crate) fn uses(s: Standing) -> Uses
    ensures { result ≡ uses_of s }
{
    let checks = two_checks(s);
    Uses {
        first: checks.first.used(),
        second: checks.second.used(),
    }
}
