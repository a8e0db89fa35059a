// Which cells are a program: up to 256 program rules, one after the other.
ghost use Rattle.std.specs.Prelude.{◌≡◌, ◌+◌, ◌^◌, ◌<◌, ◌≤◌, Decides, MatchOption};
ghost use Rattle.terms.specs.Cells.{kind, payload};
ghost use Rattle.terms.specs.Terms.{Laid};
ghost use Rattle.lets.specs.Checks.{LeftCells, Numbered, Bounded, RuleCells, NoRuleFirst, RuleFirst, ProgramChecked};

use crate::kind::Kind;
use crate::sort::{is_left_cell, is_pattern_cell, is_rule_cell, is_term_cell};
use layout::{DEPTH_MOST, Walk, layout};
use terms::cell::{binder, kind, payload};
use terms::extent::skip;
use terms::forest::Trees;

// The most rules of a program.
pub const RULES_MOST: usize = 256;

// The most variables of a left side.
const VARIABLES_MOST: usize = 1024;

// Do the cells keep the layout?
fn keeps_layout(cells: &[u64]) -> bool
    ensures { Decides result (Laid cells.now) }
{
    let mut walk = [Walk::default(); DEPTH_MOST];
    layout(cells, &mut walk).is_ok()
}

// Are they a function over constructors and variables?
fn are_left_cells(cells: &[u64]) -> bool
    ensures { Decides result (LeftCells cells.now) }
{
    match cells.split_first() {
        Some((head, patterns)) => {
            is_left_cell(*head) && patterns.iter().all(|&c| is_pattern_cell(c))
        }
        None => false,
    }
}

// How many variables the cells have, if their payloads are the numbers below that, each once.
fn variables(cells: &[u64]) -> Option<usize>
    ensures { Numbered cells.now result }
{
    // An array, and no set of the library: no heap in the run.
    let mut seen = [false; VARIABLES_MOST];
    let mut n = 0;
    for c in cells {
        if kind(*c) == Kind::Variable as u8 {
            let x = payload(*c) as usize;
            if *seen.get(x)? {
                return None;
            }
            seen[x] = true;
            n += 1;
        }
    }
    if n > VARIABLES_MOST {
        return None;
    }
    for (x, &marked) in seen.iter().enumerate() {
        if marked != (x < n) {
            return None;
        }
    }
    Some(n)
}

// Is the cell, under so many binders, a variable whose free number is not below the bound?
fn is_large(c: u64, above: u64, bound: u64) -> bool
    requires { above + bound < 2 ^ 64 }
    ensures { Decides result ((kind c ≡ 0) × (above + bound ≤ payload c)) }
{
    kind(c) == Kind::Variable as u8 && payload(c) as u64 >= above + bound
}

// Where trees end, `above` binders over each but the last and `more` over that, if their free numbers are below the bound.
fn bounded(trees: Trees, above: u64, more: u64, bound: u64) -> Option<usize>
    requires { (above + more ≤ trees.at) × (bound ≤ 1024) }
    ensures { Bounded bound above more trees.entry.n trees.entry.cells.now trees.entry.at result }
{
    let mut left = trees;
    while let Some((c, below)) = left.first() {
        let over = if left.n == 1 { above + more } else { above };
        if is_large(c, over, bound) {
            return None;
        }
        left = left.others(bounded(below, over, binder(c), bound)?);
    }
    Some(left.at)
}

// Are the cells a program rule?
fn is_program_rule(cells: &[u64]) -> bool
    ensures { Decides result (RuleCells cells.now) }
{
    if !keeps_layout(cells) {
        return false;
    }
    if !is_rule_cell(cells[0]) {
        return false;
    }
    let Some(middle) = skip(cells, 1, 1) else {
        return false;
    };
    let left = &cells[1..middle];
    if !are_left_cells(left) {
        return false;
    }
    if !cells[middle..].iter().all(|&c| is_term_cell(c)) {
        return false;
    }
    let Some(n) = variables(left) else {
        return false;
    };
    let right = Trees {
        cells,
        at: middle,
        n: 1,
    };
    bounded(right, 0, 0, n as u64).is_some()
}

// What stands behind a program rule that the cells begin with, if they do.
fn after_rule(cells: &[u64]) -> Option<&[u64]>
    ensures { MatchOption result (NoRuleFirst cells.now) (λ rest. RuleFirst cells.now rest.now) }
{
    let (rule, rest) = cells.split_at(skip(cells, 0, 1)?);
    is_program_rule(rule).then_some(rest)
}

// The number of the first rule that is no program rule or is number 256; none if the cells are a program.
pub fn first_bad_rule(cells: &[u64]) -> Option<usize>
    ensures { ProgramChecked cells.now result }
{
    let mut rest = cells;
    for number in 0..RULES_MOST {
        if rest.is_empty() {
            return None;
        }
        let Some(after) = after_rule(rest) else {
            return Some(number);
        };
        rest = after;
    }
    (!rest.is_empty()).then_some(RULES_MOST)
}

#[cfg(test)]
mod tests {
    use super::*;

    // A rule, a constructor, a function with no children and one with two, and a let.
    const ARROW: u64 = (36 << 58) + (2 << 48);

    const C: u64 = 32 << 58;

    const F: u64 = 33 << 58;

    const G: u64 = (33 << 58) + (2 << 48);

    const LET: u64 = (35 << 58) + (1 << 57) + (2 << 48);

    #[test]
    fn good_programs(rt: HostRuntime) {
        assert_eq!(rt; first_bad_rule(&[]), None);
        assert_eq!(rt; first_bad_rule(&[ARROW, F, C]), None);
        assert_eq!(rt; first_bad_rule(&[ARROW, F, C, ARROW, G, 1, 0, 1]), None);
    }

    #[test]
    fn cut_off(rt: HostRuntime) {
        assert_eq!(rt; first_bad_rule(&[ARROW, F]), Some(0));
        assert_eq!(rt; first_bad_rule(&[ARROW, F, C, ARROW]), Some(1));
    }

    #[test]
    fn left_variables(rt: HostRuntime) {
        assert_eq!(rt; first_bad_rule(&[ARROW, G, 0, 0, C]), Some(0));
        assert_eq!(rt; first_bad_rule(&[ARROW, G, 0, 2, C]), Some(0));
        assert_eq!(rt; first_bad_rule(&[ARROW, G, 0, F, C]), Some(0));
    }

    #[test]
    fn right_variables(rt: HostRuntime) {
        assert_eq!(rt; first_bad_rule(&[ARROW, G, 0, 1, 2]), Some(0));
        assert_eq!(rt; first_bad_rule(&[ARROW, G, 0, 1, LET, 1, 2]), None);
        assert_eq!(rt; first_bad_rule(&[ARROW, G, 0, 1, LET, 2, 1]), Some(0));
        assert_eq!(rt; first_bad_rule(&[ARROW, G, 0, 1, LET, 1, 3]), Some(0));
    }

    #[test]
    fn rule_256(rt: HostRuntime) {
        let mut cells = [ARROW; 771];
        for (i, c) in cells.iter_mut().enumerate() {
            if i % 3 == 1 {
                *c = F;
            }
            if i % 3 == 2 {
                *c = C;
            }
        }
        assert_eq!(rt; first_bad_rule(&cells[0..768]), None);
        assert_eq!(rt; first_bad_rule(&cells), Some(256));
    }
}
