// What a rule gives, written into lent space.
ghost use Rattle.terms.specs.Rows.{Row};
ghost use Rattle.verse_rules.specs.Reads.{Made, Given};

use calculus::no::No;
use pieces::piece::Piece;
use pieces::write;

// Writes the tree that the pieces make at the front of the space. Answers its count.
pub fn give(pieces: &[Piece], space: &mut [u64]) -> Result<usize, No>
    ensures { (u : Row) → Made pieces.now u → Given u space.old space.new result }
{
    write(pieces, space).ok_or(No::Overlong)
}
