// The rule Bind.
ghost use Rattle.terms.specs.Rows.Row.{none};
ghost use Rattle.lets.specs.Figure.{bind};
ghost use Rattle.rewriting.specs.Steps.{Steps};

use crate::redex::Redex;
use calculus::no::No;
use lets::light::is_light;
use moves::images::Substitution;
use moves::substitution::substitute;

// let X = t in e → e[X/t], if t is light.
pub fn bind_light(redex: Redex, space: &mut [u64]) -> Result<usize, No>
    ensures { Steps (bind none 0) redex.entry.cells.now space.old space.new result }
{
    let parts = redex.as_let()?;
    let value = parts.bound.cells;
    if !is_light(value) {
        return Err(No::Barred);
    }
    substitute(parts.body.trees(), Substitution::instead(value), space).ok_or(No::Overlong)
}
