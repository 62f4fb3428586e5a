// Wind pressure and overturning moment. `as` widens, as in hoop.rt of `rules`.
ghost use Rattle.std.specs.Prelude.{◌≡◌, ◌≤◌};
ghost use Rattle.fields.specs.Range.{In};
ghost use Rattle.rules.specs.Bounds.{most_height, most_pressure};
ghost use Rattle.rules.specs.Wind.{pressure_of, moment_of, standard_site, standard_code, site_code_of};

use fields::Refusal;

// The pressure in hundredths of a psf.
pub fn pressure(exposure: u32, importance: u32, speed: u32) -> u64
    requires exposure_in { In 8 exposure }
    requires importance_in { In 9 importance }
    requires speed_in { In 7 speed }
    ensures { result ≡ pressure_of exposure importance speed }
{
    let v = speed as u64;
    let num = 6 * exposure as u64 * importance as u64 * v * v;
    exact::up(num, 390625).max(1800)
}

// The overturning moment in foot-pounds of a pressure on a shell of this diameter and height.
pub fn moment(pressure: u64, diameter: u32, height: u32) -> u64
    requires pressure_le_most_pressure { pressure ≤ most_pressure }
    requires diameter_in { In 1 diameter }
    requires height_le_most_height { height ≤ most_height }
    ensures { result ≡ moment_of pressure diameter height }
{
    let hs = height as u64;
    exact::up(pressure * diameter as u64 * hs * hs, 345600000000)
}

// The standard site's pressure (Kz 109, I 115), by the rule for any site. Refused: 16, for a speed outside the range of
// field 7.
pub fn standard_site(speed: u32) -> Result<u64, Refusal>
    ensures value { result ≡ standard_site speed }
    ensures code { site_code_of result ≡ standard_code speed }
{
    if !fields::in_range(7, speed) {
        return Err(Refusal::OutOfRange(7));
    }
    Ok(pressure(109, 115, speed))
}
