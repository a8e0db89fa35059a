// Cells in bytes: eight bytes a cell, most significant first.
#![tactic(auto)]

ghost use Rattle.std.specs.Prelude.{◌≡◌, ◌+◌, ◌≤◌, length, take, drop};
ghost use Rattle.cell_bytes.specs.Holding.{CellsMeasured};
ghost use Rattle.cell_bytes.specs.Spelling.{spell_cell, CellsRead};

// The cell that eight bytes spell.
pub fn cell_at(bytes: &[u8], at: usize) -> u64
    requires { at + 8 ≤ length bytes.now }
    ensures { spell_cell result ≡ take 8 (drop at bytes.now) }
{
    cell(bytes[at..].first_chunk().unwrap())
}

// The same of just eight.
fn cell(word: &[u8; 8]) -> u64
    ensures { spell_cell result ≡ word.now }
{
    u64::from_be_bytes(*word)
}

// Reads as many whole cells as the bytes spell and the memory holds, and answers how many these are.
pub fn read_cells(bytes: &[u8], cells: &mut [u64]) -> usize
    ensures { CellsRead bytes.now cells.old cells.new result }
{
    let (words, _) = bytes.as_chunks();
    let n = words.len().min(cells.len());
    // By its number: of what a loop over a `zip` with `iter_mut` wrote, a proof knows nothing once the loop is over.
    for (i, word) in words[..n].iter().enumerate() {
        cells[i] = cell(word);
    }
    n
}

// The first byte lacking or left over where the bytes are to hold exactly so many cells; none where they do.
pub fn cells_amiss(bytes: &[u8], count: usize) -> Option<usize>
    ensures { CellsMeasured count bytes.now result }
{
    let (words, rest) = bytes.as_chunks::<8>();
    if words.len() < count {
        return Some(bytes.len());
    }
    if words.len() > count || !rest.is_empty() {
        return Some(8 * count);
    }
    None
}
