// The sum that is printed of bytes.
ghost use Rattle.std.specs.Prelude.{◌≡◌};
ghost use Rattle.vectors.specs.Sums.{sum_of};

// The bytes of s as the digits of a number to the base 257, modulo the largest prime below 2^32.
#[tactic(auto, using(crate::proofs::Sums::sum_step, crate::proofs::Sums::sum_end))]
pub(crate) fn sum(s: &[u8]) -> u64
    ensures { result ≡ sum_of 0 s.now }
{
    let mut h = 0;
    for b in s {
        h = (h * 257 + u64::from(*b)) % 4294967291;
    }
    h
}
