// Where a term ends.
ghost use Rattle.terms.specs.Standing.{Ends};

use crate::cell::children;

// Where the n trees that stand at a cell end, if so many do.
pub fn skip(cells: &[u64], at: usize, n: usize) -> Option<usize>
    ensures { Ends n cells.now at result }
{
    let mut due = n;
    let mut end = at;
    // No `for`: the walk ends where no tree is due, mostly before the cells do, and a walk over the rest would test that twice.
    while due > 0 {
        if due > cells.len().saturating_sub(end) {
            return None;
        }
        due = due - 1 + children(cells[end]);
        end += 1;
    }
    Some(end)
}
