// Normalization.
ghost use Rattle.verse.specs.Lines.{seq_assoc, eqn_float, exi_swap};
ghost use Rattle.verse_rules.specs.Rewrites.{Rewrites};

use crate::cells::{EQUATION, EXISTS, SEQUENCE};
use crate::forms::{equation, existential, sequence};
use crate::give::give;
use crate::redex::Redex;
use calculus::no::No;
use moves::renaming::Renaming;
use pieces::piece::{Moved, Piece};

// SEQ-ASSOC: (q; e1); e2 gives q; (e1; e2).
pub fn seq_assoc(redex: Redex, space: &mut [u64]) -> Result<usize, No>
    ensures { Rewrites seq_assoc redex.entry space.old space.new result }
{
    let (first, e2) = sequence(redex.cells)?;
    let (q, e1) = sequence(first)?;
    let parts = [
        Piece::Cell(SEQUENCE),
        Piece::Copy(q),
        Piece::Cell(SEQUENCE),
        Piece::Copy(e1),
        Piece::Copy(e2),
    ];
    give(&parts, space)
}

// EQN-FLOAT: v = (q; e1); e2 gives q; (v = e1; e2).
pub fn eqn_float(redex: Redex, space: &mut [u64]) -> Result<usize, No>
    ensures { Rewrites eqn_float redex.entry space.old space.new result }
{
    let (v, bound, e2) = equation(redex.cells)?;
    let (q, e1) = sequence(bound)?;
    let parts = [
        Piece::Cell(SEQUENCE),
        Piece::Copy(q),
        Piece::Cell(SEQUENCE),
        Piece::Cell(EQUATION),
        Piece::Copy(v),
        Piece::Copy(e1),
        Piece::Copy(e2),
    ];
    give(&parts, space)
}

// EXI-SWAP: ∃x. ∃y. e gives ∃y. ∃x. e, its two nearest binders exchanged.
pub fn exi_swap(redex: Redex, space: &mut [u64]) -> Result<usize, No>
    ensures { Rewrites exi_swap redex.entry space.old space.new result }
{
    let under = existential(redex.cells)?;
    let e = existential(under)?;
    let parts = [
        Piece::Cell(EXISTS),
        Piece::Cell(EXISTS),
        Piece::Moved(Moved {
            cells: e,
            how: Renaming::Exchange,
        }),
    ];
    give(&parts, space)
}
