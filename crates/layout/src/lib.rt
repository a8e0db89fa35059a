// Does a term keep the layout and fill its cells? One pass over the cells, with a list of those still open.
#![tactic(auto)]

ghost use Rattle.std.specs.Prelude.{◌≡◌, ◌+◌, ◌<◌, ◌≤◌, max, List, length, drop, Decides};
ghost use Rattle.layout.specs.Answers.{Answered};
ghost use Rattle.layout.specs.declared.Fault.TheVariants.{Memory};
ghost use Rattle.layout.specs.Open.{first, Stands, Holds, Follows, Good};
ghost use Rattle.terms.specs.Cells.{children, Fields};
ghost use Rattle.terms.specs.Layout.{Parent, onward, next, binders, LayoutJudged};

use std::alloc::AllocError;
use terms::cell::{VARIABLE, binder, children, kind, payload, zeros};

// The most cells of a term.
pub const CELLS_MOST: usize = 2048;

// The most cells on a way down from its first.
pub const DEPTH_MOST: usize = 256;

// The most free variables: their numbers are below this.
pub const FREE_MOST: u32 = 1024;

// A cell still open on a walk: its children yet to come, the next among them; the binders above each of them but the
// last, and above the last.
#[derive(Clone, Copy, PartialEq, Eq, Debug, Default)]
pub struct Walk {
    pub left: u16,
    pub above: u16,
    pub last: u16,
}

// Why cells have no size and depth: too few walk records, or the first wrong cell, else the count.
#[derive(Clone, Copy, PartialEq, Eq, Debug)]
pub enum Fault {
    Memory,
    Cell(usize),
}

impl From<AllocError> for Fault {
    ghost from_gives = { λ _ f. f ≡ Memory };

    fn from(_e: AllocError) -> Self {
        Self::Memory
    }
}

// The cells and the depth of a term that keeps the layout.
pub fn layout(cells: &[u64], walk: &mut [Walk]) -> Result<(usize, usize), Fault>
    ensures answer { Answered (length walk.old) cells.now result }
    ensures short { length walk.old < 256 → walk.new ≡ walk.old }
    ensures past { drop 256 walk.new ≡ drop 256 walk.old }
{
    let walk = walk.first_chunk_mut().ok_or(Fault::Memory)?;
    laid(cells, walk).map_err(Fault::Cell)
}

// The same with records enough, or the first wrong cell, else the count.
fn laid(cells: &[u64], walk: &mut [Walk; DEPTH_MOST]) -> Result<(usize, usize), usize>
    ensures judged { LayoutJudged cells.now result }
    ensures records { length walk.new ≡ 256 }
{
    let mut coming = Some(0);
    let mut deepest = 0;
    for (i, c) in cells.iter().enumerate() {
        let height = coming.ok_or(i)?;
        if !has_room(i, height) {
            return Err(i);
        }
        let above = binders_above(&walk[..height]);
        if !is_good(*c, above) {
            return Err(i);
        }
        deepest = deepened(deepest, height);
        coming = pass(walk, height, above, *c);
    }
    match coming {
        None => Ok((cells.len(), deepest)),
        Some(_) => Err(cells.len()),
    }
}

// How many cells lie above the cell that follows the cell c, if one does.
fn pass(walk: &mut [Walk; DEPTH_MOST], height: usize, above: u16, c: u64) -> Option<usize>
    requires room { height < 256 }
    requires few { above ≤ 256 }
    ensures { (up : List Parent) → height ≡ length up → above ≡ binders up → Holds walk.old up → Follows walk.new (next c up) result }
{
    if children(c) == 0 {
        return close(&mut walk[..height]);
    }
    walk[height] = enter(c, above);
    Some(height + 1)
}

// The record of a cell with so many binders above it, all its children to come.
fn enter(c: u64, above: u16) -> Walk
    requires { (1 ≤ children c) × (above ≤ 256) }
    ensures { (up : List Parent) → above ≡ binders up → Stands result (first c) up }
{
    let left = children(c) as u16;
    let last = above + binder(c) as u16;
    Walk { left, above, last }
}

// How many of the open cells stay open behind a finished term, the last child of each that it closes; none where all close.
fn close(walk: &mut [Walk]) -> Option<usize>
    ensures { (up : List Parent) → length walk.old ≡ length up → Holds walk.old up → Follows walk.new (onward up) result }
{
    let top = walk.iter().rposition(|w| w.left > 1)?;
    walk[top].left -= 1;
    Some(top + 1)
}

// The binders above the cell that comes, under these open cells.
fn binders_above(walk: &[Walk]) -> u16
    ensures { (up : List Parent) → length walk.now ≡ length up → Holds walk.now up → result ≡ binders up }
{
    let Some(&top) = walk.last() else {
        return 0;
    };
    if top.left == 1 { top.last } else { top.above }
}

// May a term have a cell of this number under so many others?
fn has_room(i: usize, height: usize) -> bool
    ensures { Decides result ((i < 2048) × (height < 256)) }
{
    i < CELLS_MOST && height < DEPTH_MOST
}

// The depth so far, with one more cell under so many others.
fn deepened(deepest: usize, height: usize) -> usize
    requires { height < 256 }
    ensures { result ≡ max deepest (height + 1) }
{
    deepest.max(height + 1)
}

// Has the cell good fields, and no free number of 1,024 or more under so many binders?
fn is_good(c: u64, above: u16) -> bool
    ensures { Decides result (Good c above) }
{
    has_good_fields(c) && (kind(c) != VARIABLE || payload(c) < above as u32 + FREE_MOST)
}

// Are the zero bits 0, has a binder bit a child, and a variable neither?
fn has_good_fields(c: u64) -> bool
    ensures { Decides result (Fields c) }
{
    zeros(c) == 0
        && (binder(c) == 0 || children(c) > 0)
        && (kind(c) != VARIABLE || binder(c) == 0 && children(c) == 0)
}

#[cfg(test)]
mod tests {
    use super::*;

    const INTEGER: u64 = 1 << 58;

    fn judged(cells: &[u64]) -> Result<(usize, usize), Fault> {
        let mut walk = [Walk::default(); DEPTH_MOST];
        layout(cells, &mut walk)
    }

    #[test]
    fn cells_run_out(rt: HostRuntime) {
        assert_eq!(rt; judged(&[]), Err(Fault::Cell(0)));
        assert_eq!(rt; judged(&[INTEGER]), Ok((1, 1)));
        assert_eq!(rt; judged(&[INTEGER + (511 << 48)]), Err(Fault::Cell(1)));
    }

    #[test]
    fn short_walk(rt: HostRuntime) {
        let mut walk = [Walk::default(); 255];
        assert_eq!(rt; layout(&[INTEGER], &mut walk), Err(Fault::Memory));
    }

    #[test]
    fn free_numbers(rt: HostRuntime) {
        assert_eq!(rt; judged(&[1023]), Ok((1, 1)));
        assert_eq!(rt; judged(&[1024]), Err(Fault::Cell(0)));
        assert_eq!(rt; judged(&[4_294_967_295]), Err(Fault::Cell(0)));
        assert_eq!(rt; judged(&[INTEGER + 4_294_967_295]), Ok((1, 1)));
    }
}
