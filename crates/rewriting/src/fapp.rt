// The rule Fapp.
ghost use Rattle.std.specs.Prelude.{◌≡◌, ℕ, ◌+◌, ◌≤◌, ◌⊎◌, length, Decides};
ghost use Rattle.terms.specs.Cells.{kind, children, payload};
ghost use Rattle.terms.specs.Rows.{Row, size};
ghost use Rattle.terms.specs.Standing.{Stands};
ghost use Rattle.calculus.specs.Figures.{Spells};
ghost use Rattle.lets.specs.Syntax.{ProgramRule};
ghost use Rattle.lets.specs.Figure.{fapp as fapp_line};
ghost use Rattle.rewriting.specs.Steps.{Steps};
ghost use Rattle.rewriting.specs.Matchings.{RuleOf};

use crate::matching::{are_light, match_left};
use crate::redex::Redex;
use calculus::no::No;
use lets::kind::Kind;
use moves::images::Substitution;
use moves::substitution::substitute;
use terms::cell::{children, kind, payload};
use terms::forest::Trees;

// The most variables of a left side.
const BINDINGS_MOST: usize = 1024;

// The most pattern cells of a left side that is not large.
const BINDINGS_FEW: usize = 128;

// Is the cell a function, marked or not, with the symbol number and as many children as the head of a rule?
fn calls(c: u64, head: u64) -> bool
    ensures { Decides result (((kind c ≡ 33) ⊎ (kind c ≡ 34)) × (payload c ≡ payload head) × (children c ≡ children head)) }
{
    (kind(c) == Kind::Function as u8 || kind(c) == Kind::Marked as u8)
        && payload(c) == payload(head)
        && children(c) == children(head)
}

// f?(p)θ → rθ, if θ is light; r begins at the cell of that number, and the values have room for θ.
fn call_within<'r>(
    rule: &[u64],
    right: usize,
    redex: Redex<'r>,
    values: &mut [&'r [u64]],
    space: &mut [u64],
) -> Result<usize, No>
    requires spelled { Spells ProgramRule rule.now }
    requires right_side { (l : Row) → Stands l 1 rule.now 1 → right ≡ 1 + size l }
    requires room { (right ≤ 2 + length values.old) ⊎ (length values.old ≡ 1024) }
    ensures { (program : Row) (argument : ℕ) → RuleOf program argument rule.now → Steps (fapp_line program argument) redex.entry.cells.now space.old space.new result }
{
    if !calls(redex.head(), rule[1]) {
        return Err(No::Formless);
    }
    let n = match_left(&rule[2..right], &redex.cells[1..], values).ok_or(No::Formless)?;
    let bound = &values[..n];
    if !are_light(bound) {
        return Err(No::Barred);
    }
    let right = Trees {
        cells: rule,
        at: right,
        n: 1,
    };
    substitute(right, Substitution::bindings(bound), space).ok_or(No::Overlong)
}

// The same with room for any left side, apart from `call`: to fill its array takes longer than a small step.
fn call_large(rule: &[u64], right: usize, redex: Redex, space: &mut [u64]) -> Result<usize, No>
    requires spelled { Spells ProgramRule rule.now }
    requires right_side { (l : Row) → Stands l 1 rule.now 1 → right ≡ 1 + size l }
    ensures { (program : Row) (argument : ℕ) → RuleOf program argument rule.now → Steps (fapp_line program argument) redex.entry.cells.now space.old space.new result }
{
    let mut values = [[].as_slice(); BINDINGS_MOST];
    call_within(rule, right, redex, &mut values, space)
}

// f?(p)θ → rθ, if f(p) → r is the program rule, and θ is light.
pub fn call(rule: &[u64], redex: Redex, space: &mut [u64]) -> Result<usize, No>
    requires { Spells ProgramRule rule.now }
    ensures { (program : Row) (argument : ℕ) → RuleOf program argument rule.now → Steps (fapp_line program argument) redex.entry.cells.now space.old space.new result }
{
    // Asked here too, so that no array is filled where the redex is no call of the rule's function.
    if !calls(redex.head(), rule[1]) {
        return Err(No::Formless);
    }
    let left = Trees {
        cells: rule,
        at: 1,
        n: 1,
    };
    let right = left.end();
    if right > 2 + BINDINGS_FEW {
        return call_large(rule, right, redex, space);
    }
    // An array and a count, no Vec: a step takes nothing from the heap.
    let mut values = [[].as_slice(); BINDINGS_FEW];
    call_within(rule, right, redex, &mut values, space)
}
