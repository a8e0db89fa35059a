// Why a script is not read.
ghost use Rattle.std.specs.Prelude.{◌≡◌, Some};
ghost use Rattle.script.specs.Script.{fault_of, fault_text};
ghost use Rattle.script.specs.declared.fault.Bad.TheVariants.{Text, Memory};

use std::alloc::{AllocError, AllocFailed};
use std::error::Error;
use std::fmt;
use std::num::ParseIntError;

// The number of the first bad line, from 1, or of the line after the last where no calculus is named; or no memory.
#[derive(Clone, Copy, PartialEq, Eq, Debug)]
pub enum Fault {
    Line(usize),
    Memory,
}

// What is wrong within a line, by code that does not know the line's number.
#[derive(Clone, Copy, PartialEq, Eq, Debug)]
pub enum Bad {
    Text,
    Memory,
}

impl Bad {
    // The fault where this is wrong in the line of that number.
    pub fn in_line(self, line: usize) -> Fault
        ensures { result ≡ fault_of self line }
    {
        match self {
            Bad::Text => Fault::Line(line),
            Bad::Memory => Fault::Memory,
        }
    }
}

impl From<ParseIntError> for Bad {
    ghost from_gives = { λ _ e. e ≡ Text };

    fn from(_: ParseIntError) -> Bad {
        Self::Text
    }
}

impl From<AllocError> for Bad {
    ghost from_gives = { λ _ e. e ≡ Memory };

    fn from(_: AllocError) -> Bad {
        Self::Memory
    }
}

impl<T: Drop> From<AllocFailed<T>> for Bad {
    ghost from_gives = { λ _ e. e ≡ Memory };

    fn from(_: AllocFailed<T>) -> Bad {
        Bad::Memory
    }
}

impl fmt::Display for Fault {
    ghost output = { λ e. Some (fault_text e) };

    fn fmt<W: fmt::Write>(&self, f: &mut fmt::Formatter<W>) -> fmt::Result {
        match self {
            Fault::Line(line) => write!(f, "line {line}: not understood"),
            Fault::Memory => write!(f, "no memory"),
        }
    }
}

impl Error for Fault {}
