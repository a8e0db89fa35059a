// Elimination.
ghost use Rattle.verse.specs.Lines.{val_elim, exi_elim};
ghost use Rattle.verse_rules.specs.Rewrites.{Rewrites};

use crate::forms::{existential, sequence, value};
use crate::give::give;
use crate::redex::Redex;
use calculus::no::No;
use moves::occurs::occurs;
use moves::renaming::Renaming;
use pieces::piece::{Moved, Piece};
use terms::forest::Trees;

// VAL-ELIM: v; e gives e.
pub fn val_elim(redex: Redex, space: &mut [u64]) -> Result<usize, No>
    ensures { Rewrites val_elim redex.entry space.old space.new result }
{
    let (v, e) = sequence(redex.cells)?;
    value(v)?;
    give(&[Piece::Copy(e)], space)
}

// EXI-ELIM: ∃x. e gives e, if x is not free in e.
pub fn exi_elim(redex: Redex, space: &mut [u64]) -> Result<usize, No>
    ensures { Rewrites exi_elim redex.entry space.old space.new result }
{
    let e = existential(redex.cells)?;
    let body = Trees {
        cells: e,
        at: 0,
        n: 1,
    };
    match occurs(body, 0) {
        Some(_) => Err(No::Barred),
        None => give(
            &[Piece::Moved(Moved {
                cells: e,
                how: Renaming::Lower,
            })],
            space,
        ),
    }
}
