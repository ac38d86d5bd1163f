// The way of a request through its program.
ghost use Rattle.std.specs.Prelude.{◌≡◌, slice_index_or};
ghost use Rattle.model.specs.Audit.{same_path};
ghost use Rattle.replay.specs.Promises.{way};

use arrayvec::ArrayVec;
use machine::LIMIT;

// The positions that a request carried out.
pub(crate) type Positions = ArrayVec<u8, LIMIT>;

// A program, and the positions that a request of it carried out.
#[derive(Default, Drop)]
pub(crate) struct Path {
    pub prog: u64,
    pub positions: Positions,
}

impl Path {
    pub fn same(&self, other: &Path) -> bool
        ensures { result ≡ same_path (way self.now) (way other.now) }
    {
        self.prog == other.prog && self.positions.as_slice() == other.positions.as_slice()
    }
}

// The way of a request is that of the first of its group, in place f of those before it, or itself.
pub(crate) fn same_way(paths: &[Path], f: usize, path: &Path) -> bool
    ensures { result ≡ same_path (way path.now) (way (slice_index_or paths.now f path.now)) }
{
    match paths.get(f) {
        Some(first) => path.same(first),
        None => true,
    }
}
