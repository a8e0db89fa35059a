// Going down a place: a list of child numbers that leads from the root to a part of a term.
ghost use Rattle.std.specs.Prelude.{ℕ, List};
ghost use Rattle.terms.specs.Terms.{TreeOf};
ghost use Rattle.terms.specs.Rows.{Row};
ghost use Rattle.terms.specs.Descents.{ChildAt, Reached, Descended};

use crate::cell::children;
use crate::extent::skip;

// Why a place leads nowhere: the cells are no term, or the first entry that names no child.
#[derive(Clone, Copy, PartialEq, Eq, Debug)]
pub enum Astray {
    NoTerm,
    Entry(usize),
}

// Where child number n of the cell at `at` stands, if it has one.
pub fn child(cells: &[u64], at: usize, n: usize) -> Option<usize>
    ensures { ChildAt cells.now at n result }
{
    let c = cells.get(at)?;
    if n >= children(*c) {
        return None;
    }
    skip(cells, at + 1, n)
}

// The cell that a place of a term reaches, or the number of the first entry that names no child. Of cells that are
// known to be a term: a caller that does not know it asks `descend`.
pub fn down(cells: &[u64], place: &[u8]) -> Result<usize, usize>
    ensures { (t : Row) → TreeOf cells.now t → Reached cells.now place.now result }
{
    let mut at = 0;
    for (k, entry) in place.iter().enumerate() {
        at = child(cells, at, *entry as usize).ok_or(k)?;
    }
    Ok(at)
}

// The same of any cells.
pub fn descend(cells: &[u64], place: &[u8]) -> Result<usize, Astray>
    ensures { Descended cells.now place.now result }
{
    match skip(cells, 0, 1) {
        Some(end) if end == cells.len() => down(cells, place).map_err(Astray::Entry),
        _ => Err(Astray::NoTerm),
    }
}
