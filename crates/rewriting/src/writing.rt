// Cells written over a space, one after the other.
ghost use Rattle.std.specs.Prelude.{◌≡◌, ◌+◌, ◌^◌, ◌<◌, ◌≤◌, length};
ghost use Rattle.terms.specs.Lists.{over};
ghost use Rattle.terms.specs.Rows.{Row, flat, size, rename};
ghost use Rattle.terms.specs.Forest.{Are};
ghost use Rattle.moves.specs.Renamings.{renamed, most};

use moves::renaming::{Renaming, rename};
use terms::forest::Trees;

// Writes the cells from one on. Answers where they end.
// A cell number beside the space: with `&mut space[to..]` at each piece thirty goals on parts of parts stayed open.
pub(crate) fn put(cells: &[u64], space: &mut [u64], to: usize) -> usize
    requires { to + length cells.now ≤ length space.old }
    ensures end { result ≡ to + length cells.now }
    ensures wrote { space.new ≡ over space.old to cells.now }
{
    let end = to + cells.len();
    space[to..end].copy_from_slice(cells);
    end
}

// Writes the trees, their free variables renamed, from a cell on. Answers where they end.
pub(crate) fn put_renamed(trees: Trees, how: Renaming, space: &mut [u64], to: usize) -> usize
    requires room { (t : Row) → Are trees t → to + size t ≤ length space.old }
    requires mild { most how < 2 ^ 63 }
    ensures end { (t : Row) → Are trees.entry t → result ≡ to + size t }
    ensures wrote { (t : Row) → Are trees.entry t → space.new ≡ over space.old to (flat (rename (renamed how) 0 0 t)) }
{
    to + rename(trees, how, &mut space[to..])
}
