// What the checker of a single term says.
ghost use Rattle.std.specs.Prelude.{◌≡◌, Some};

use layout::Fault;
use std::fmt;

// A term of so many cells and such a depth; or refused, with the first wrong cell; or not judged, for want of memory.
#[derive(Clone, Copy, PartialEq, Eq, Debug)]
pub struct Verdict(pub Result<(usize, usize), Fault>);

impl From<Result<(usize, usize), Fault>> for Verdict {
    ghost from_gives = { λ r v. v.0 ≡ r };

    fn from(judged: Result<(usize, usize), Fault>) -> Self {
        Verdict(judged)
    }
}

impl fmt::Display for Verdict {
    ghost use Rattle.single.specs.Lines.{line};

    ghost output = { λ v. Some (line v.0) };

    fn fmt<W: fmt::Write>(&self, f: &mut fmt::Formatter<W>) -> fmt::Result {
        match self.0 {
            Ok((cells, depth)) => write!(f, "term {cells} {depth}"),
            Err(Fault::Cell(place)) => write!(f, "refused term 4 0 {place}"),
            Err(Fault::Memory) => write!(f, "refused memory 1 0 0"),
        }
    }
}
