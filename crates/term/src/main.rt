// Reads a term from standard input, eight bytes a cell, and prints whether it keeps the layout.
#![tactic(auto)]

use layout::{CELLS_MOST, DEPTH_MOST, Fault, Walk};
use single::verdict::Verdict;
use single::{BYTES_MOST, judge};
use std::alloc::Global;
use std::io;
use std::io::{ErrorKind, Read};

fn main(rt: HostRuntime) -> io::Result<()> {
    let mut bytes = Vec::new(rt.alloc());
    let judged = match rt.stdin().take(BYTES_MOST as u64).read_to_end(&mut bytes) {
        Ok(_) => judged(rt.alloc(), &bytes),
        Err(e) if e.kind() == ErrorKind::OutOfMemory => Err(Fault::Memory),
        Err(e) => return Err(e),
    };
    rt.println(Verdict::from(judged))
}

// Judges the bytes, with memory from the heap.
fn judged(heap: Global, bytes: &[u8]) -> Result<(usize, usize), Fault> {
    let mut cells = vec![in heap; 0; CELLS_MOST + 1]?;
    let mut walk = vec![in heap; Walk::default(); DEPTH_MOST]?;
    judge(bytes, &mut cells, &mut walk)
}
