// Shell compression at the bottom course (document 02, S-6 and S-8).
ghost use Rattle.std.specs.Prelude.{◌≡◌, ◌≤◌, cond};
ghost use Rattle.fields.specs.Range.{In};
ghost use Rattle.sheet.specs.Complete.{entries_of, Valid};
ghost use Rattle.buckling.specs.Bounds.{most_coefficient};
ghost use Rattle.buckling.specs.Coefficient.{argument_of, coefficient_of};
ghost use Rattle.compression.specs.Compression.{self_anchored, lifts, uplifted, stresses_of, unless_uplifted, shell_compression, compression_code, shell_compression_code, ReplyJustified};

use buckling::{Shell, pressure, stress};
use entries::{Anchors, Entries, Sheet, Tank};
use fields::Refusal;
use judge::judging;
use reports::report::Standing;
use stability::earthquake::Uplift;

// The longitudinal compression stress at the bottom of the shell and the allowed one, in psi; it holds when the stress
// is at most the allowed one. Both stand beside either word.
#[derive(Clone, Copy, Debug, PartialEq, Eq)]
pub struct Stresses {
    pub stress: u64,
    pub allowed: u64,
    pub holds: bool,
}

// The stresses at the bottom course of a sheet's tank. They do not depend on the method, which is taken by its number, since
// any number is answered. Refused: as judging by the method with this number is (30, 42, 32, 35, 36, 38, 37), then 43.
pub fn shell_compression(method: u32, s: Sheet) -> Result<Stresses, Refusal>
    ensures value { result ≡ shell_compression method s }
    ensures code { compression_code result ≡ shell_compression_code method s }
    ensures reply_justified { ReplyJustified (entries_of s) result }
{
    let completed = complete::of_sheet(s);
    let judgement = judging::judge_completed(method, completed);
    judgement.answer?;
    unless_uplifted(judgement.report.standing, completed.unwrap())
}

// The stresses, or 43.
fn unless_uplifted(standing: Standing, e: Entries) -> Result<Stresses, Refusal>
    requires { Valid e }
    ensures { result ≡ unless_uplifted standing e }
{
    if is_uplifted(standing) {
        return Err(Refusal::ShellUplift);
    }
    Ok(bottom_stresses(e))
}

// Whether the tank is self-anchored and its edge lifts.
fn is_uplifted(standing: Standing) -> bool
    ensures { result ≡ uplifted standing }
{
    match standing {
        Standing::SelfAnchored(checks) => lifts(checks.uplift),
        Standing::Anchored(_) => false,
    }
}

fn lifts(uplift: Uplift) -> bool
    ensures { result ≡ lifts uplift }
{
    uplift != Uplift::None
}

fn bottom_stresses(e: Entries) -> Stresses
    requires { Valid e }
    ensures { result ≡ stresses_of e }
{
    let tank = e.tank;
    let site = e.site;
    let bottom = e.courses[0];
    let shell = Shell {
        diameter: tank.diameter,
        net: bottom.plate - bottom.allowance,
    };
    let coefficient = coefficient(tank, e.anchors, shell);
    let stress = stress::compression(tank.weight, site.vertical, site.moment, shell);
    let allowed = stress::allowed(coefficient, shell);
    Stresses {
        stress,
        allowed,
        holds: stress <= allowed,
    }
}

// The coefficient of pressure: none for anchored tanks.
fn coefficient(tank: Tank, anchors: Anchors, shell: Shell) -> u32
    requires level_in { In 2 tank.level }
    requires gravity_in { In 20 tank.gravity }
    ensures value { result ≡ cond (self_anchored anchors) (coefficient_of (argument_of tank.level tank.gravity shell.diameter shell.net)) 0 }
    ensures upper_bound { result ≤ most_coefficient }
{
    if anchors.number != 0 {
        return 0;
    }
    pressure::coefficient(pressure::argument(tank.level, tank.gravity, shell))
}
