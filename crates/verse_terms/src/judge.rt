// Which cells are a lawful term.
ghost use Rattle.std.specs.Prelude.{◌≤◌, [], ◌∷◌, length};
ghost use Rattle.verse_terms.specs.Answers.{From, TermJudged};
ghost use Rattle.verse_terms.specs.Sorts.{sort_of};

use crate::sort::{Sort, child_sort};
use terms::cell::children;

// Where the tree of the sort at a cell ends, and its depth; or the first cell where no such tree can go on, else the
// count.
fn tree(sort: Sort, cells: &[u64], at: usize) -> Result<(usize, usize), usize>
    requires { at ≤ length cells.now }
    ensures { From (sort_of sort ∷ []) cells.now at result }
{
    let Some(&c) = cells.get(at) else {
        return Err(at);
    };
    if !sort.admits(c) {
        return Err(at);
    }
    let mut end = at + 1;
    let mut deepest = 0;
    for n in 0..children(c) {
        let (next, deep) = tree(child_sort(c, n), cells, end)?;
        end = next;
        deepest = deepest.max(deep);
    }
    Ok((end, deepest + 1))
}

// (Let-rewriting has a function of this shape over its own judge. A common one would take that as a closure with its contract, and be longer than both.)
// The cells and the depth of a lawful term; or the first cell where no lawful term can go on, else the count.
pub fn judge(cells: &[u64]) -> Result<(usize, usize), usize>
    ensures { TermJudged cells.now result }
{
    let (end, deep) = tree(Sort::Expression, cells, 0)?;
    if end < cells.len() {
        return Err(end);
    }
    Ok((end, deep))
}
