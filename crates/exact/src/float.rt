// A float as its bits.
ghost use Rattle.std.specs.Prelude.{◌≡◌};
ghost use Rattle.std.specs.Float.{binary64};
ghost use Rattle.std.specs.Float.Ieee.{to_bits};

// The 64-bit pattern of a float. The language leaves open which one a NaN has; here it is the one of the
// kit's definition.
#[tactic(auto, using(crate::proofs::FloatLaws::nan_bits))]
pub fn bits(x: f64) -> u64
    ensures { result ≡ to_bits binary64 x }
{
    if x.is_nan() {
        return 0x7ff8000000000000;
    }
    f64::to_bits(x)
}
