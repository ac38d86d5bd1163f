// Row 8: an operation within the count has no log line.
ghost use Rattle.std.specs.Prelude.{[], ◌≡◌};
ghost use Rattle.model.specs.Claims.{bad8};
ghost use Rattle.model.specs.FirstBad.{first_bad};
ghost use Rattle.machine.specs.Rules.{broken_line};

use crate::claims::Claims;
use text::{BadLine, Of};

// The first `of` line that counts an operation without a log line.
pub(crate) fn row_8(ofs: &[Of], claims: &Claims) -> Result<(), BadLine>
    ensures { broken_line result ≡ first_bad (bad8 claims.now.log) 1 [] ofs.now }
{
    'lines: {
        for (i, x) in ofs.iter().enumerate() {
            // An inclusive range would carry a flag that each turn tests.
            for k in (0..x.count).rev() {
                if claims.line_of(x.rid, k + 1).is_none() {
                    break 'lines Err(BadLine { line: i + 1 });
                }
            }
        }
        Ok(())
    }
}
