// Calls that Rust links, for tests and measurements.
#![tactic(auto)]

ghost use Rattle.ffi.specs.Depths.{DepthOf};

use layout::{DEPTH_MOST, Walk, layout};

// The depth of a term that keeps the layout, and 0 for other cells.
#[unsafe(no_mangle)]
pub extern "C" fn layout_depth(cells: &[u64]) -> usize
    ensures { DepthOf cells.now result }
{
    let mut walk = [Walk::default(); DEPTH_MOST];
    match layout(cells, &mut walk) {
        Ok((_, depth)) => depth,
        Err(_) => 0,
    }
}
