// The calls of `ffi`, as a static library exports them to C and Rust.
#![tactic(auto)]

ghost use Rattle.ffi.specs.Depths.{DepthOf};

// The depth of a term that keeps the layout, and 0 for other cells.
#[unsafe(no_mangle)]
pub extern "C" fn layout_depth(cells: &[u64]) -> usize
    ensures { DepthOf cells.now result }
{
    ffi::layout_depth(cells)
}
