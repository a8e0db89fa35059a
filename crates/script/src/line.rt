// The lines of a script.
ghost use Rattle.script.specs.Line.{ReadsLine, GoesOn};

use crate::fault::Bad;
pub use crate::part::Part;
use crate::words::{self, number, place};

// A line: the memory handed from now on (cells of table and scratch, walk records), a call, or a question.
#[derive(Clone, Copy, PartialEq, Eq, Debug)]
pub enum Line {
    Memory {
        table: usize,
        scratch: usize,
        walk: usize,
    },
    Open(Part),
    Step {
        rule: u8,
        argument: u8,
        place: Part,
        inner: Part,
    },
    Settle {
        ticket: u16,
        claim: Part,
    },
    Withdraw(u16),
    Tell,
    Table(usize),
}

impl Line {
    // Reads the words of a line. The cells and the place entries that it names are put behind those so far.
    pub fn read(words: &[&str], cells: &mut Vec<u64>, entries: &mut Vec<u8>) -> Result<Line, Bad>
        ensures { ReadsLine words.now cells.old.items cells.new.items entries.old.items entries.new.items result }
    {
        match *words {
            ["memory", table, scratch, walk] => Ok(Line::Memory {
                table: number(table, 4096)?,
                scratch: number(scratch, 4096)?,
                walk: number(walk, 4096)?,
            }),
            ["open", ref term @ ..] => Ok(Line::Open(words::cells(term, cells)?)),
            ["step", rule, argument, outer, inner] => Ok(Line::Step {
                rule: rule.parse()?,
                argument: argument.parse()?,
                place: place(outer, entries)?,
                inner: place(inner, entries)?,
            }),
            ["settle", ticket, ref claim @ ..] => Ok(Line::Settle {
                ticket: ticket.parse()?,
                claim: words::cells(claim, cells)?,
            }),
            ["withdraw", ticket] => Ok(Line::Withdraw(ticket.parse()?)),
            ["tell"] => Ok(Line::Tell),
            ["table", n] => Ok(Line::Table(number(n, 4096)?)),
            _ => Err(Bad::Text),
        }
    }

    // Reads further words of the line, the cells that its term or its claim goes on with. They lie behind those before.
    pub fn go_on(self, words: &[&str], cells: &mut Vec<u64>) -> Result<Line, Bad>
        ensures { GoesOn words.now self cells.old.items cells.new.items result }
    {
        match self {
            Line::Open(term) => Ok(Line::Open(Part {
                start: term.start,
                end: words::cells(words, cells)?.end,
            })),
            Line::Settle { ticket, claim } => Ok(Line::Settle {
                ticket,
                claim: Part {
                    start: claim.start,
                    end: words::cells(words, cells)?.end,
                },
            }),
            Line::Memory { .. }
            | Line::Step { .. }
            | Line::Withdraw(_)
            | Line::Tell
            | Line::Table(_) => Err(Bad::Text),
        }
    }
}
