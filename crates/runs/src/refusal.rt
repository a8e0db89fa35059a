// Why a call is refused: the question that says no, and the place told.
ghost use Rattle.std.specs.Prelude.{◌≡◌, Some};
ghost use Rattle.runs.specs.Numbers.{number_of, place_of};
ghost use Rattle.runs.specs.Texts.{refusal_text};
ghost use Rattle.runs.specs.Faults.{refusal_of};

use calculus::no::No;
use layout::Fault;
use std::error::Error;
use std::fmt;

// A calculus' own no comes with the redex's cell.
#[derive(Clone, Copy, PartialEq, Eq, Debug)]
pub enum Refusal {
    Memory,
    NotIdle,
    Exhausted,
    Misshapen(usize),
    Unlawful(usize),
    NotOpen,
    Tampered,
    NoChild(usize),
    NoSite(usize),
    Calculus(No, usize),
    TooDeep(usize),
    WrongTicket,
}

impl Refusal {
    // The number of the question that says no.
    pub fn number(self) -> u8
        ensures { result ≡ number_of self }
    {
        match self {
            Refusal::Memory => 1,
            Refusal::NotIdle => 2,
            Refusal::Exhausted => 3,
            Refusal::Misshapen(_) => 4,
            Refusal::Unlawful(_) => 5,
            Refusal::NotOpen => 6,
            Refusal::Tampered => 7,
            Refusal::NoChild(_) => 8,
            Refusal::NoSite(_) => 9,
            Refusal::Calculus(no, _) => no.number(),
            Refusal::TooDeep(_) => 16,
            Refusal::WrongTicket => 17,
        }
    }

    // The place told: a cell for 4 and 5, an entry for 8, the redex's cell for 9 to 16, else 0.
    pub fn place(self) -> usize
        ensures { result ≡ place_of self }
    {
        match self {
            Refusal::Misshapen(i)
            | Refusal::Unlawful(i)
            | Refusal::NoChild(i)
            | Refusal::NoSite(i)
            | Refusal::Calculus(_, i)
            | Refusal::TooDeep(i) => i,
            Refusal::Memory
            | Refusal::NotIdle
            | Refusal::Exhausted
            | Refusal::NotOpen
            | Refusal::Tampered
            | Refusal::WrongTicket => 0,
        }
    }
}

impl From<Fault> for Refusal {
    ghost from_gives = { λ fault r. r ≡ refusal_of fault };

    fn from(fault: Fault) -> Refusal {
        match fault {
            Fault::Memory => Refusal::Memory,
            Fault::Cell(i) => Refusal::Misshapen(i),
        }
    }
}

impl fmt::Display for Refusal {
    ghost output = { λ r. Some (refusal_text r) };

    fn fmt<W: fmt::Write>(&self, f: &mut fmt::Formatter<W>) -> fmt::Result {
        write!(f, "no {} {}", self.number(), self.place())
    }
}

impl Error for Refusal {}
