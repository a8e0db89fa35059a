// The checker of a single term: its cells in bytes, judged by the layout.
#![tactic(auto)]

ghost use Rattle.std.specs.Prelude.{◌≡◌, Err, length, drop};
ghost use Rattle.single.specs.Verdicts.{TermJudged, CellsLeft};

use cell_bytes::read_cells;
use layout::{CELLS_MOST, DEPTH_MOST, Fault, Walk, layout};

pub mod verdict;

// As many bytes as can change an answer: those of one cell more than a term may have.
pub const BYTES_MOST: usize = 16_392;

// Judges the bytes as one term that keeps the layout and fills them, with memory for 2,049 cells and 256 walk records: the
// term's cells and depth, or too little memory, or the first wrong cell.
pub fn judge(bytes: &[u8], cells: &mut [u64], walk: &mut [Walk]) -> Result<(usize, usize), Fault>
    ensures answer { TermJudged (length cells.old) (length walk.old) bytes.now result }
    ensures cells { CellsLeft bytes.now cells.old cells.new result }
    ensures past { drop 256 walk.new ≡ drop 256 walk.old }
    ensures short { result ≡ Err Fault.Memory → walk.new ≡ walk.old }
{
    if cells.len() <= CELLS_MOST || walk.len() < DEPTH_MOST {
        return Err(Fault::Memory);
    }
    let n = read_cells(bytes, cells);
    let (count, depth) = layout(&cells[..n], walk)?;
    if bytes.len() > 8 * n {
        return Err(Fault::Cell(n));
    }
    Ok((count, depth))
}
