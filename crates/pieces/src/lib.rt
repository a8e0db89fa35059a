// What a rule writes, said as pieces of its redex.
#![tactic(auto)]

ghost use Rattle.std.specs.Prelude.{◌≡◌, ◌≤◌, ◌++◌, length, drop, Some};
ghost use Rattle.pieces.specs.Shown.{shown, shown_all, Counted, Put};

pub mod parts;
pub mod piece;

use moves::renaming::rename;
use piece::Piece;
use terms::forest::Trees;

// How many cells a piece has.
fn size(piece: Piece) -> usize
    ensures { result ≡ length (shown piece.entry) }
{
    match piece {
        Piece::Cell(_) => 1,
        Piece::Copy(cells) => cells.len(),
        Piece::Moved(moved) => moved.cells.len(),
    }
}

// How many cells the pieces have, if there is room for so many.
fn count(pieces: &[Piece], room: usize) -> Option<usize>
    ensures { Counted (length (shown_all pieces.now)) room result }
{
    let mut left = room;
    for piece in pieces {
        left = left.checked_sub(size(*piece))?;
    }
    Some(room - left)
}

// Writes a piece at the front of the space, and answers how many cells it has.
fn put(piece: Piece, space: &mut [u64]) -> usize
    requires { length (shown piece) ≤ length space.old }
    ensures { Put (shown piece.entry) space.old space.new (Some result) }
{
    match piece {
        Piece::Cell(c) => {
            space[0] = c;
            1
        }
        Piece::Copy(cells) => {
            space[..cells.len()].copy_from_slice(cells);
            cells.len()
        }
        Piece::Moved(moved) => {
            let tree = Trees {
                cells: moved.cells,
                at: 0,
                n: 1,
            };
            rename(tree, moved.how, space)
        }
    }
}

// Writes the pieces one after the other at the front of the space. (What a loop over the rest of the space leaves of the
// whole did not prove, so the loop keeps where it is.)
fn put_all(pieces: &[Piece], space: &mut [u64])
    requires { length (shown_all pieces.now) ≤ length space.old }
    ensures { space.new ≡ shown_all pieces.now ++ drop (length (shown_all pieces.now)) space.old }
{
    let mut to = 0;
    for piece in pieces {
        to += put(*piece, &mut space[to..]);
    }
}

// Writes the pieces one after the other at the front of the space, and answers how many cells these are; none, and
// nothing written, where the space has not so many.
pub fn write(pieces: &[Piece], space: &mut [u64]) -> Option<usize>
    ensures { Put (shown_all pieces.now) space.old space.new result }
{
    let n = count(pieces, space.len())?;
    put_all(pieces, space);
    Some(n)
}
