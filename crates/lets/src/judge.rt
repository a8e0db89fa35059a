// Which cells are a lawful term.
ghost use Rattle.std.specs.Prelude.{◌≤◌, length};
ghost use Rattle.lets.specs.Answers.{TermJudged, TermFrom};

use crate::sort::is_term_cell;
use terms::cell::children;

// Where the term at a cell ends, and its depth; or the first cell where no term can go on, else the count.
// A cell number, not the rest of the cells: where a term stops is told as a number among all of them.
fn term_at(cells: &[u64], at: usize) -> Result<(usize, usize), usize>
    requires { at ≤ length cells.now }
    ensures { TermFrom cells.now at result }
{
    if at >= cells.len() {
        return Err(at);
    }
    let c = cells[at];
    if !is_term_cell(c) {
        return Err(at);
    }
    let mut end = at + 1;
    let mut deepest = 0;
    for _judged in 0..children(c) {
        let (next, deep) = term_at(cells, end)?;
        end = next;
        deepest = deepest.max(deep);
    }
    Ok((end, deepest + 1))
}

// The cells and the depth of a lawful term; or the first cell where no lawful term can go on, else the count.
pub fn judge(cells: &[u64]) -> Result<(usize, usize), usize>
    ensures { TermJudged cells.now result }
{
    let (end, deep) = term_at(cells, 0)?;
    if end < cells.len() {
        return Err(end);
    }
    Ok((end, deep))
}

#[cfg(test)]
mod tests {
    use super::*;

    const F: u64 = (33 << 58) + (2 << 48);

    const RULE: u64 = (36 << 58) + (2 << 48);

    #[test]
    fn lawful_terms(rt: HostRuntime) {
        assert_eq!(rt; judge(&[0]), Ok((1, 1)));
        assert_eq!(rt; judge(&[F, 0, F, 1, 2]), Ok((5, 3)));
        assert_eq!(rt; judge(&[F, 0]), Err(2));
        assert_eq!(rt; judge(&[F, 0, RULE]), Err(2));
        assert_eq!(rt; judge(&[0, 0]), Err(1));
    }
}
