// Judges terms at the limits of the layout, and prints a line for each.
#![tactic(auto)]

ghost use Rattle.std.specs.Prelude.{◌<◌};

use layout::{CELLS_MOST, DEPTH_MOST, Walk};
use single::judge;
use single::verdict::Verdict;

// A variable, an integer, a cell with one child, a binder over one child, and a tuple; a field more is added to one.
const VARIABLE: u64 = 0;

const INTEGER: u64 = 1 << 58;

const ONE: u64 = 11 << 58 | 1 << 48;

const LAMBDA: u64 = 4 << 58 | 1 << 57 | 1 << 48;

const TUPLE: u64 = 3 << 58;

const CHILD: u64 = 1 << 48;

const ZERO_BIT: u64 = 1 << 32;

const BINDER: u64 = 1 << 57;

// A term's name, its cells, and how many bytes come after them.
type Case<'c> = (&'c str, &'c [u64], usize);

// The verdict on cells, with some bytes more.
fn verdict(rt: &HostRuntime, cells: &[u64], more: usize) -> anyhow::Result<Verdict> {
    let mut bytes = Vec::new(rt.alloc());
    for c in cells {
        bytes.extend_from_slice(&c.to_be_bytes())?;
    }
    bytes.extend_from_slice(&[0; 8][..more.min(8)])?;
    let mut read = vec![in rt.alloc(); 0; CELLS_MOST + 1]?;
    let mut walk = vec![in rt.alloc(); Walk::default(); DEPTH_MOST]?;
    Ok(Verdict::from(judge(&bytes, &mut read, &mut walk)))
}

// Prints the verdict on each under its name.
fn show(rt: &HostRuntime, cases: &[Case]) -> anyhow::Result<()> {
    for (name, cells, more) in cases {
        let verdict = verdict(rt, cells, *more)?;
        println!(rt; "{name}: {verdict}")?;
    }
    Ok(())
}

// So many cells, each over the next, and a last one under them.
fn chain(rt: &HostRuntime, link: u64, links: usize, last: u64) -> anyhow::Result<Vec<u64>> {
    let mut cells = vec![in rt.alloc(); link; links]?;
    cells.push(last)?;
    Ok(cells)
}

// Adds a tuple that says it has so many children, and so many integers after it.
fn add_tuple(cells: &mut Vec<u64>, children: u64, there: usize) -> anyhow::Result<()>
    requires { children < 512 }
{
    cells.push(TUPLE + children * CHILD)?;
    cells.resize(cells.len().saturating_add(there), INTEGER)?;
    Ok(())
}

// A tuple of 23 tuples of 88 integers: 2,048 cells; the last tuple has one more where that is asked.
fn wide(rt: &HostRuntime, more: bool) -> anyhow::Result<Vec<u64>> {
    let mut cells = Vec::new(rt.alloc());
    add_tuple(&mut cells, 23, 0)?;
    for _ in 0..22 {
        add_tuple(&mut cells, 88, 88)?;
    }
    if more {
        add_tuple(&mut cells, 89, 89)?;
    } else {
        add_tuple(&mut cells, 88, 88)?;
    }
    Ok(cells)
}

// A tuple that says it has 511 children, and so many integers after it.
fn tuple_of_511(rt: &HostRuntime, there: usize) -> anyhow::Result<Vec<u64>> {
    let mut cells = Vec::new(rt.alloc());
    add_tuple(&mut cells, 511, there)?;
    Ok(cells)
}

fn sizes(rt: &HostRuntime) -> anyhow::Result<()> {
    let full = wide(rt, false)?;
    let over = wide(rt, true)?;
    let deep = chain(rt, ONE, 255, INTEGER)?;
    let deeper = chain(rt, ONE, 256, INTEGER)?;
    let cut = [TUPLE + 2 * CHILD, INTEGER];
    let cases: [Case; 11] = [
        ("no cell", &[], 0),
        ("one cell", &[INTEGER + 7], 0),
        ("seven bytes", &[], 7),
        ("a cell and a byte", &[INTEGER], 1),
        ("a tuple cut within its last cell", &cut, 4),
        ("two terms", &[INTEGER, INTEGER], 0),
        ("2,048 cells", &full, 0),
        ("2,049 cells", &over, 0),
        ("2,048 cells and a byte", &full, 1),
        ("depth 256", &deep, 0),
        ("depth 257", &deeper, 0),
    ];
    show(rt, &cases)
}

fn fields(rt: &HostRuntime) -> anyhow::Result<()> {
    let all = tuple_of_511(rt, 511)?;
    let but_one = tuple_of_511(rt, 510)?;
    let none = tuple_of_511(rt, 0)?;
    let never = chain(rt, TUPLE + 511 * CHILD, 299, INTEGER)?;
    let last_only = [TUPLE + BINDER + 2 * CHILD, VARIABLE + 1024, VARIABLE + 1024];
    let cases: [Case; 14] = [
        ("511 children", &all, 0),
        ("511 children, 510 there", &but_one, 0),
        ("511 children, none there", &none, 0),
        ("children that can never be filled", &never, 0),
        ("a zero bit set", &[TUPLE + CHILD, INTEGER + ZERO_BIT], 0),
        ("a binder with no child", &[TUPLE + BINDER], 0),
        ("a variable with a child", &[VARIABLE + CHILD, INTEGER], 0),
        ("free number 1,023", &[VARIABLE + 1023], 0),
        ("free number 1,024", &[VARIABLE + 1024], 0),
        (
            "free number 1,023 under a binder",
            &[LAMBDA, VARIABLE + 1024],
            0,
        ),
        (
            "free number 1,024 under a binder",
            &[LAMBDA, VARIABLE + 1025],
            0,
        ),
        ("a binder binds its last child only", &last_only, 0),
        ("variable 4,294,967,295", &[VARIABLE + 4_294_967_295], 0),
        ("integer 4,294,967,295", &[INTEGER + 4_294_967_295], 0),
    ];
    show(rt, &cases)
}

fn main(rt: HostRuntime) -> anyhow::Result<()> {
    sizes(&rt)?;
    fields(&rt)
}
