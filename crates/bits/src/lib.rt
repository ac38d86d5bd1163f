// Operations on the bits of 64-bit numbers, with laws of bits for every place (proofs/Places.antt).
#![tactic(auto)]

ghost use Rattle.std.specs.Prelude.{◌≡◌, ◌+◌, ◌/◌};

// Half the sum, which fits where the sum may not: the common bits, and half of those that differ.
// std's `midpoint` promises the same, by more operations: both halves, and the carry of what they leave.
pub fn half_sum(a: u64, b: u64) -> u64
    ensures { result ≡ (a + b) / 2 }
{
    (a & b) + ((a ^ b) >> 1)
}
