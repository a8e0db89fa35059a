// The term at the front of a table: put there, and compared with a claim.
ghost use Rattle.std.specs.Prelude.{◌≡◌, ◌≤◌, length};
ghost use Rattle.terms.specs.Terms.{Laid};
ghost use Rattle.runs.specs.Chain.{Compared};
ghost use Rattle.runs.specs.Theorem.{laid};

use crate::call::Settlement;
use layout::CELLS_MOST;

// Puts a term at the front of a table, and zeros behind it.
pub fn put(term: &[u64], table: &mut [u64])
    requires few { length term.now ≤ 2048 }
    requires long { 2048 ≤ length table.old }
    ensures { table.new ≡ laid term.now table.old }
{
    let n = term.len();
    table[..n].copy_from_slice(term);
    table[n..CELLS_MOST].fill(0);
}

// The first cell at which a claim differs from the table's term. Both are whole terms, so that neither ends inside the other.
pub fn compare(claim: &[u64], term: &[u64]) -> Settlement
    requires claim { Laid claim.now }
    requires term { Laid term.now }
    ensures { Compared claim.now term.now result }
{
    match term
        .iter()
        .zip(claim)
        .position(|(cell, other)| cell != other)
    {
        Some(i) => Settlement::Differs(i),
        None => Settlement::Reached,
    }
}
