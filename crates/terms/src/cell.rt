// The fields of a cell of 64 bits, most significant first: kind 6, binder 1, children 9, zero bits 16, payload 32.
ghost use Rattle.std.specs.Prelude.{◌≡◌, ℕ, ◌+◌, ◌*◌, ◌/◌, ◌%◌, ◌^◌, ◌<◌, ◌≤◌};
ghost use Rattle.terms.specs.Cells.{kind, binder, children, zeros, payload, form};
ghost use Rattle.terms.specs.Fields.{Taken, Packed};

// A variable's kind in every calculus.
pub const VARIABLE: u8 = 0;

pub fn kind(c: u64) -> u8
    ensures { result ≡ kind c }
{
    (c >> 58) as u8
}

// How many binders the last child lies under more than the others: 0 or 1.
pub fn binder(c: u64) -> u64
    ensures { result ≡ binder c }
{
    (c >> 57) % 2
}

pub fn children(c: u64) -> usize
    ensures { result ≡ children c }
{
    ((c >> 48) % 0x200) as usize
}

pub fn zeros(c: u64) -> u16
    ensures { result ≡ zeros c }
{
    ((c >> 32) % 0x1_0000) as u16
}

pub fn payload(c: u64) -> u32
    ensures { result ≡ payload c }
{
    (c % 0x1_0000_0000) as u32
}

// Has the cell that kind, binder and number of children, and zero bits 0?
pub fn has_form(c: u64, k: u8, b: u64, n: usize) -> bool
    ensures { result ≡ form k b n c }
{
    kind(c) == k && binder(c) == b && children(c) == n && zeros(c) == 0
}

// A cell taken apart.
#[derive(Clone, Copy, PartialEq, Eq, Debug)]
pub struct Cell {
    pub kind: u8,
    pub binder: bool,
    pub children: u16,
    pub zeros: u16,
    pub payload: u32,
}

// Fields that are those of no cell: the kind or the children do not fit their bits.
#[derive(Clone, Copy, PartialEq, Eq, Debug)]
pub struct Oversized;

impl From<u64> for Cell {
    ghost from_gives = { Taken };

    // The five fields of a cell. They determine it.
    fn from(c: u64) -> Cell {
        Cell {
            kind: kind(c),
            binder: binder(c) == 1,
            children: children(c) as u16,
            zeros: zeros(c),
            payload: payload(c),
        }
    }
}

impl TryFrom<Cell> for u64 {
    type Error = Oversized;

    ghost try_from_gives = { Packed };

    // The cell with these fields.
    fn try_from(fields: Cell) -> Result<u64, Oversized> {
        if fields.kind >= 64 || fields.children >= 512 {
            return Err(Oversized);
        }
        let high = (fields.kind as u64 * 2 + fields.binder as u64) * 0x200 + fields.children as u64;
        Ok((high * 0x1_0000 + fields.zeros as u64) * 0x1_0000_0000 + fields.payload as u64)
    }
}
