// The questions of a step, and the term that it leads to.
ghost use Rattle.std.specs.Prelude.{◌≡◌, ◌+◌, ◌≤◌, length, take};
ghost use Rattle.terms.specs.Terms.{Laid};
ghost use Rattle.terms.specs.Places.{whole};
ghost use Rattle.runs.specs.Rewriting.{step_of, RedexAsked, RewriteAsked};

use crate::asking::kept;
use crate::refusal::Refusal;
use crate::step::Step;
use calculus::Calculus;
use calculus::no::No;
use layout::{CELLS_MOST, DEPTH_MOST, Walk};
use terms::extent::skip;
use terms::place::down;

// A redex, and the cells left and right of it.
#[derive(Clone, Copy)]
struct Parts<'t> {
    left: &'t [u64],
    redex: &'t [u64],
    right: &'t [u64],
}

// 8 and 9: the redex at the place. `Laid` stays a `requires`, here, below and in `compare`: it holds its tree, so that a ghost field would ask for a proof that cells have one.
fn split<'t, C: Calculus>(calculus: &C, step: Step, term: &'t [u64]) -> Result<Parts<'t>, Refusal>
    requires { Laid term.now }
    ensures { RedexAsked (C.Calculus.meaning calculus.now) term.now (step_of step.entry) result }
{
    let at = down(term, step.place).map_err(Refusal::NoChild)?;
    if !calculus.site(term, step.place) {
        return Err(Refusal::NoSite(at));
    }
    let end = skip(term, at, 1).unwrap();
    let (front, right) = term.split_at(end);
    let (left, redex) = front.split_at(at);
    Ok(Parts { left, redex, right })
}

// Puts the n cells at the front of the space between those left and right of the redex.
fn surround(parts: Parts, n: usize, space: &mut [u64; CELLS_MOST])
    requires { length parts.left.now + n + length parts.right.now ≤ CELLS_MOST }
    ensures { take (length parts.entry.left.now + n + length parts.entry.right.now) space.new ≡ whole parts.entry.left.now (take n space.old) parts.entry.right.now }
{
    let at = parts.left.len();
    let past = at + n;
    space.copy_within(0..n, at);
    space[..at].copy_from_slice(parts.left);
    space[past..past + parts.right.len()].copy_from_slice(parts.right);
}

// 8 to 16: how many cells the term has that the step leads to. It stands at the front of the space.
pub(crate) fn rewrite_within<C: Calculus>(
    calculus: &C,
    step: Step,
    term: &[u64],
    space: &mut [u64; CELLS_MOST],
    walk: &mut [Walk; DEPTH_MOST],
) -> Result<usize, Refusal>
    requires { Laid term.now }
    ensures leads { RewriteAsked (C.Calculus.meaning calculus.now) term.now (step_of step.entry) space.new result }
    ensures cells { length space.new ≡ 2048 }
{
    let parts = split(calculus, step, term)?;
    let at = parts.left.len();
    let n = calculus
        .step(step.rule, step.argument, step.inner, parts.redex, space)
        .map_err(|no| Refusal::Calculus(no, at))?;
    let cells = at + n + parts.right.len();
    if cells > CELLS_MOST {
        return Err(Refusal::Calculus(No::Overlong, at));
    }
    surround(parts, n, space);
    kept(&space[..cells], walk).map_err(|_| Refusal::TooDeep(at))?;
    Ok(cells)
}

// The same with a space and a walk list that may be longer than enough.
pub fn rewrite<C: Calculus>(
    calculus: &C,
    step: Step,
    term: &[u64],
    space: &mut [u64],
    walk: &mut [Walk],
) -> Result<usize, Refusal>
    requires held { Laid term.now }
    requires room { (2048 ≤ length space.old) × (256 ≤ length walk.old) }
    ensures { RewriteAsked (C.Calculus.meaning calculus.now) term.now (step_of step.entry) space.new result }
{
    let enough = space.first_chunk_mut().unwrap();
    rewrite_within(
        calculus,
        step,
        term,
        enough,
        walk.first_chunk_mut().unwrap(),
    )
}
