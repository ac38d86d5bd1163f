// The numbers of a result in a lent slice.
ghost use Rattle.std.specs.Prelude.{◌≡◌, ◌≤◌, length};
ghost use Rattle.lines.specs.Put.{front};
ghost use Rattle.export.specs.Numbers.{audit_numbers};

use verifier::Audited;

// Numbers to the front of out, which has room for them.
#[tactic(auto, unfolding(lines::specs::Put::front))]
pub(crate) fn fill(out: &mut [u64], numbers: &[u64])
    requires { length numbers.now ≤ length out.old }
    ensures { out.new ≡ front numbers.now out.old }
{
    out[..numbers.len()].copy_from_slice(numbers);
}

// The numbers of an audit.
pub(crate) fn numbers_of(a: Audited) -> [u64; 6]
    ensures { result ≡ audit_numbers a }
{
    [
        a.verdict,
        a.line,
        a.requests,
        a.operations,
        a.blocks,
        a.rest,
    ]
}
