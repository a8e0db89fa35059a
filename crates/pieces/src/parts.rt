// Readers of a part: cells that one tree may fill.
ghost use Rattle.std.specs.Prelude.{◌≡◌, ℕ, length, Decides};
ghost use Rattle.terms.specs.Cells.{children};
ghost use Rattle.terms.specs.Rows.{Row};
ghost use Rattle.terms.specs.Rows.Row.{none, node};
ghost use Rattle.terms.specs.Terms.{TreeOf};
ghost use Rattle.pieces.specs.Parts.{Within, Topped, Paired, Single};

use terms::extent::skip;

// The first cell of the part.
pub fn top(part: &[u64]) -> Option<u64>
    ensures within { Within 0 (length part.now) result }
    ensures reads { (t : Row) → TreeOf part.now t → Topped t result }
{
    part.first().copied()
}

// Is the part that cell alone?
pub fn is(part: &[u64], cell: u64) -> bool
    ensures { (t : Row) → TreeOf part.now t → Decides result (t ≡ node cell none none) }
{
    part == [cell].as_slice()
}

// The only child of that cell, if the part is such a one.
pub fn only(part: &[u64], cell: u64) -> Option<&[u64]>
    requires { children cell ≡ 1 }
    ensures { (t : Row) → TreeOf part.now t → Single cell t result }
{
    part.strip_prefix(&[cell])
}

// The two children of that cell, if the part is such a one.
pub fn two(part: &[u64], cell: u64) -> Option<(&[u64], &[u64])>
    requires { children cell ≡ 2 }
    ensures { (t : Row) → TreeOf part.now t → Paired cell t result }
{
    let kids = part.strip_prefix(&[cell])?;
    let mid = skip(kids, 0, 1)?;
    Some(kids.split_at(mid))
}
