// A signed number without its sign.
ghost use Rattle.std.specs.Prelude.{◌≡◌, nat_abs};
ghost use Rattle.exact.specs.Quotient.{positive_part};

// The size of a number.
pub fn magnitude(z: i64) -> u64
    ensures { result ≡ nat_abs z }
{
    z.unsigned_abs()
}

// The number, or 0 if it is negative.
pub fn positive_part(z: i64) -> u64
    ensures { result ≡ positive_part z }
{
    magnitude(z.max(0))
}
