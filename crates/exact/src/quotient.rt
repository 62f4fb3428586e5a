// The quotient of two whole numbers, rounded to a stated side.
ghost use Rattle.std.specs.Prelude.{◌≡◌, ◌<◌, ℕ, pos, nat_abs, ◌<ℤ◌};
ghost use Rattle.exact.specs.Quotient.{down_of, up_of, up_ℤ};

// An unsigned number, of 64 bits or of 128, with its quotients rounded down and up.
pub trait Unsigned: Copy {
    ghost value: { Self → ℕ };

    fn down(self, den: Self) -> Self
        requires { 0 < value den }
        ensures { value result ≡ down_of (value self) (value den) };

    fn up(self, den: Self) -> Self
        requires { 0 < value den }
        ensures { value result ≡ up_of (value self) (value den) };
}

impl Unsigned for u64 {
    ghost value = { λ n. n };

    fn down(self, den: u64) -> u64 {
        self / den
    }

    #[tactic(auto, using(crate::proofs::QuotientLaws::div_ceil_is))]
    fn up(self, den: u64) -> u64 {
        self.div_ceil(den)
    }
}

// Rounded down: the greatest n with n * den at most num.
pub fn down<T: Unsigned>(num: T, den: T) -> T
    requires { 0 < T.value den }
    ensures { T.value result ≡ down_of (T.value num) (T.value den) }
{
    num.down(den)
}

// Rounded up: the least n with num at most n * den.
pub fn up<T: Unsigned>(num: T, den: T) -> T
    requires { 0 < T.value den }
    ensures { T.value result ≡ up_of (T.value num) (T.value den) }
{
    num.up(den)
}

// Rounded toward the greater number, on either side of zero. `/` cuts toward zero, which for a
// negative num is toward the greater number already; a remainder above 0 says that it was not. (An i64 has no
// `div_ceil`.)
#[tactic(auto, using(crate::proofs::SignedLaws::signed_laws))]
pub fn up_signed(num: i64, den: i64) -> i64
    requires { pos 0 <ℤ den }
    ensures { result ≡ up_ℤ num (nat_abs den) }
{
    let whole = num / den;
    if num % den > 0 {
        return whole + 1;
    }
    whole
}
