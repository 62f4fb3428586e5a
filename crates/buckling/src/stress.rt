// The longitudinal shell compression stress at the bottom of the shell, and the seismic allowable one, in psi (source
// 003, Eq 13-39 and 13-47 to 13-49, Sec. 3.4.3.1.1). The fractions are reduced; t / R is t / (5 D), and the coefficient
// is in hundred-thousandths.
ghost use Rattle.std.specs.Prelude.{◌≡◌, ◌≤◌};
ghost use Rattle.fields.specs.Range.{In};
ghost use Rattle.buckling.specs.Bounds.{most_coefficient};
ghost use Rattle.buckling.specs.Stress.{stress_of};
ghost use Rattle.buckling.specs.Allowed.{allowed_of};

use crate::shell::Shell;

// Rounded up. The numerator is within 64 bits, and not within 63. (Weight and vertical acceleration: lib.rt of `stability`.)
#[tactic(auto, using(crate::proofs::StressLaws::stress_reduced))]
pub fn compression(weight: u32, vertical: u32, moment: u32, shell: Shell) -> u64
    requires weight_in { In 3 weight }
    requires vertical_in { In 10 vertical }
    requires moment_in { In 11 moment }
    ensures { result ≡ stress_of weight vertical moment shell.diameter shell.net }
{
    let d = u64::from(shell.diameter);
    let load = 113 * u64::from(weight) * (2500 + u64::from(vertical)) * d;
    let overturning = 1355745000 * u64::from(moment);
    exact::up(8 * (load + overturning), 71 * u64::from(shell.net) * d * d)
}

// Rounded down. Anchored tanks have a coefficient of 0. Elastic buckling has a numerator past 64 bits; what is left of it
// fits them, and so is cast.
#[tactic(auto, using(crate::proofs::AllowedLaws::allowed_laws))]
pub fn allowed(coefficient: u32, shell: Shell) -> u64
    requires { coefficient ≤ most_coefficient }
    ensures { result ≡ allowed_of coefficient shell.diameter shell.net }
{
    let c = u64::from(coefficient);
    let d = u64::from(shell.diameter);
    let t = u64::from(shell.net);
    if 125000 * t <= 1943 * d {
        let sum = (350000 + 29 * c) * d * d + 700000000 * t * t;
        let den = u128::from(1000 * d * d * d);
        return exact::down(exact::product(sum, 1333 * t), den) as u64;
    }
    if 16 * t <= d {
        return exact::down(1333 * (5775 * d + (147600 + 29 * c) * t), 1000 * d);
    }
    exact::down(1333 * (15000 * d + 29 * c * t), 1000 * d)
}
