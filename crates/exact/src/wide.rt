// Numbers past 64 bits.
ghost use Rattle.std.specs.Prelude.{◌≡◌, ◌*◌};

use crate::quotient::Unsigned;

// The product of two numbers of 64 bits.
pub fn product(a: u64, b: u64) -> u128
    ensures { result ≡ a * b }
{
    u128::from(a) * u128::from(b)
}

impl Unsigned for u128 {
    ghost value = { λ n. n };

    fn down(self, den: u128) -> u128 {
        self / den
    }

    #[tactic(auto, using(crate::proofs::QuotientLaws::div_ceil_is))]
    fn up(self, den: u128) -> u128 {
        self.div_ceil(den)
    }
}
