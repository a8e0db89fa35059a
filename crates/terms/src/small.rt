// The terms that a rule is tried on have small variables.
ghost use Rattle.std.specs.Prelude.{◌≡◌, Decides};
ghost use Rattle.std.specs.List.{list_all};
ghost use Rattle.terms.specs.Cells.{small};
ghost use Rattle.terms.specs.Terms.{Small};

use crate::cell::{VARIABLE, kind, payload};

// The largest payload of a variable in a term that a rule is tried on.
const PAYLOAD_MOST: u32 = 65_535;

// Is the cell no variable, or one with a payload up to 65,535?
fn is_small(c: u64) -> bool
    ensures { result ≡ small c }
{
    kind(c) != VARIABLE || payload(c) <= PAYLOAD_MOST
}

// Is each of the cells?
fn are_small(cells: &[u64]) -> bool
    ensures { result ≡ list_all small cells.now }
{
    cells.iter().all(|c| is_small(*c))
}

// Is no variable's payload above 65,535?
pub fn has_small_variables(cells: &[u64]) -> bool
    ensures { Decides result (Small cells.now) }
{
    are_small(cells)
}
