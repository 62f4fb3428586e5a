// The whole root, bit by bit, with no float (by the library's `isqrt` a sheet misses the bar of speed).
ghost use Rattle.std.specs.Prelude.{◌≡◌, ◌<◌};
ghost use Rattle.exact.specs.Root.{root_of, root_up};

// The greatest n with factor * n * n at most most. That is the greatest n with n * n at most
// most / factor, whose bits are tried from the highest down: n is below 2 to the 32.
#[tactic(auto, using(crate::proofs::RootLaws::root_laws))]
pub fn greatest_root(factor: u64, most: u64) -> u64
    requires { 0 < factor }
    ensures { result ≡ root_of factor most }
{
    let square = most / factor;
    let mut n: u64 = 0;
    for k in (0u32..32).rev() {
        let more = n + (1 << k);
        if more * more <= square {
            n = more;
        }
    }
    n
}

// The root of a number, rounded up: the least n with n * n at least `square`.
pub fn root_up(square: u64) -> u64
    ensures { result ≡ root_up square }
{
    let n = greatest_root(1, square);
    if n * n < square {
        return n + 1;
    }
    n
}
