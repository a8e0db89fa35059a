// The cells of the forms. A tuple adds the count of its elements.
ghost use Rattle.std.specs.Prelude.{◌≡◌};
ghost use Rattle.terms.specs.Cells.{cell};

const INTEGER: u64 = 0x0400_0000_0000_0000;

pub const ADD: u64 = 0x0800_0000_0000_0000;

pub const GT: u64 = 0x0800_0000_0000_0001;

pub const TUPLE: u64 = 0x0c00_0000_0000_0000;

// a tuple of one element, and of two
pub const SINGLE: u64 = 0x0c01_0000_0000_0000;

pub const PAIR: u64 = 0x0c02_0000_0000_0000;

pub const LAMBDA: u64 = 0x1201_0000_0000_0000;

pub const APPLICATION: u64 = 0x1402_0000_0000_0000;

pub const SEQUENCE: u64 = 0x1802_0000_0000_0000;

pub const EQUATION: u64 = 0x1c02_0000_0000_0000;

pub const EXISTS: u64 = 0x2201_0000_0000_0000;

pub const FAIL: u64 = 0x2400_0000_0000_0000;

pub const CHOICE: u64 = 0x2802_0000_0000_0000;

pub const ONE: u64 = 0x2c01_0000_0000_0000;

pub const ALL: u64 = 0x3001_0000_0000_0000;

// The cell of a variable.
pub fn variable_cell(x: u32) -> u64
    ensures { result ≡ cell 0 0 0 x }
{
    x as u64
}

// The cell of an integer, by its payload.
pub fn integer_cell(k: u32) -> u64
    ensures { result ≡ cell 1 0 0 k }
{
    INTEGER + k as u64
}
