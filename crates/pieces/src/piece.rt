// A piece of what is written.
ghost use Rattle.std.specs.Prelude.{◌^◌, ◌<◌};
ghost use Rattle.moves.specs.Renamings.{most};
ghost use Rattle.pieces.specs.Parts.{OneTree};

use moves::renaming::Renaming;

// The cells of a tree, and what becomes of its free variables: no number goes up by 2^32 or more.
#[derive(Clone, Copy, PartialEq, Eq, Debug)]
pub struct Moved<'r> {
    pub cells: &'r [u64],
    pub how: Renaming,
    pub ghost tree: { ∥ OneTree cells.now ∥₁ },
    pub ghost mild: { most how < 2 ^ 32 },
}

// A cell of its own; some cells as they are; or the cells of a tree, its free variables renamed.
#[derive(Clone, Copy, PartialEq, Eq, Debug)]
pub enum Piece<'r> {
    Cell(u64),
    Copy(&'r [u64]),
    Moved(Moved<'r>),
}
