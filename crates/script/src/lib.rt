// Scripts of calls in text, a call a line; blank lines and what follows `#` pass.
#![tactic(auto)]

ghost use Rattle.std.specs.Prelude.{IfOk, IfErr};
ghost use Rattle.script.specs.Script.{HasSizes, NamesLine, Begun, Continues, Goes};

use std::alloc::Global;

pub mod calculus;
pub mod fault;
pub mod line;
pub mod part;
pub mod words;

use calculus::Calculus;
pub use fault::{Bad, Fault};
use line::Line;
use words::cells;

// The most words of a line that are held at once.
const HELD_MOST: usize = 512;

// A script: the calculus, its program, and the lines that follow in order. The cells and the place entries that the
// lines name lie one after the other.
#[derive(Debug, Drop, PartialEq, Eq)]
pub struct Script {
    pub calculus: Calculus,
    pub program: Vec<u64>,
    pub cells: Vec<u64>,
    pub entries: Vec<u8>,
    pub lines: Vec<Line>,
}

impl Script {
    // Reads a whole script.
    pub fn parse(heap: Global, text: &str) -> Result<Script, Fault>
        ensures sizes { IfOk result HasSizes }
        ensures line { IfErr result (NamesLine text.now) }
    {
        let mut script = None;
        let mut held = Vec::new(heap);
        for (i, line) in text.lines().enumerate() {
            read(heap, line, &mut held, &mut script).map_err(|bad| bad.in_line(i + 1))?;
        }
        match script {
            Some(script) => Ok(script),
            None => Err(Fault::Line(text.lines().count() + 1)),
        }
    }

    // Reads the words of the first line: the calculus, and its program's cells.
    fn begin(heap: Global, words: &[&str]) -> Result<Script, Bad>
        ensures { Begun words.now result }
    {
        match *words {
            ["calculus", number, ref program @ ..] => {
                let mut script = Script {
                    calculus: number.parse::<u8>()?.try_into()?,
                    program: Vec::new(heap),
                    cells: Vec::new(heap),
                    entries: Vec::new(heap),
                    lines: Vec::new(heap),
                };
                cells(program, &mut script.program)?;
                Ok(script)
            }
            _ => Err(Bad::Text),
        }
    }

    // Reads further words of the line that was read last.
    fn go_on(&mut self, words: &[&str]) -> Result<(), Bad>
        ensures { Continues words.now self.old self.new result }
    {
        match self.lines.pop() {
            Some(line) => self.lines.push(line.go_on(words, &mut self.cells)?)?,
            None => {
                cells(words, &mut self.program)?;
            }
        }
        Ok(())
    }
}

// Reads words of a line: its first, or those that go on from the ones before. The calculus comes first, then the calls.
fn read_words(
    heap: Global,
    words: &[&str],
    further: bool,
    script: &mut Option<Script>,
) -> Result<(), Bad>
    ensures { IfOk result (λ _. Goes script.old script.new) }
{
    match script {
        None => *script = Some(Script::begin(heap, words)?),
        Some(script) if further => script.go_on(words)?,
        Some(script) => {
            let line = Line::read(words, &mut script.cells, &mut script.entries)?;
            script.lines.push(line)?;
        }
    }
    Ok(())
}

// Reads one line, some of its words at a time.
fn read<'t>(
    heap: Global,
    line: &'t str,
    held: &mut Vec<&'t str>,
    script: &mut Option<Script>,
) -> Result<(), Bad>
    ensures { IfOk result (λ _. Goes script.old script.new) }
{
    let body = line.split_once('#').map_or(line, |(body, _)| body);
    let mut further = false;
    held.clear();
    for word in body.split_whitespace() {
        if held.len() == HELD_MOST {
            read_words(heap, held, further, script)?;
            further = true;
            held.clear();
        }
        held.push(word)?;
    }
    if held.is_empty() {
        return Ok(());
    }
    read_words(heap, held, further, script)
}

#[cfg(test)]
mod tests {
    use super::*;
    use line::Part;
    use std::test::Fail;

    const TEXT: &str = "# one of each
calculus 2 9002000000000000

memory 1 2 4096 # sizes
open 8801000000000002 8800000000000001
step 1 2 1.0 -
settle 65535 8800000000000001
withdraw 7
tell
table 8
";

    #[test]
    fn reads_each_line(rt: HostRuntime) -> Result<(), Fail> {
        let script = Script::parse(rt.alloc(), TEXT)?;
        let cell = 0x8800_0000_0000_0001;
        let cells = [0x8801_0000_0000_0002, cell, cell];
        let lines = [
            Line::Memory {
                table: 1,
                scratch: 2,
                walk: 4096,
            },
            Line::Open(Part { start: 0, end: 2 }),
            Line::Step {
                rule: 1,
                argument: 2,
                place: Part { start: 0, end: 2 },
                inner: Part { start: 2, end: 2 },
            },
            Line::Settle {
                ticket: 65535,
                claim: Part { start: 2, end: 3 },
            },
            Line::Withdraw(7),
            Line::Tell,
            Line::Table(8),
        ];
        assert_eq!(rt; script.calculus, Calculus::LetRewriting);
        assert_eq!(rt;
            script.program.as_slice(),
            [0x9002_0000_0000_0000].as_slice()
        );
        assert_eq!(rt; script.cells.as_slice(), cells.as_slice());
        assert_eq!(rt; script.entries.as_slice(), [1, 0].as_slice());
        assert_eq!(rt; script.lines.as_slice(), lines.as_slice());
        Ok(())
    }

    #[test]
    fn reads_a_line_of_many_words(rt: HostRuntime) -> Result<(), Fail> {
        let mut text = String::new(rt.alloc());
        text.push_str("calculus 2\nopen")?;
        for _ in 0..1025 {
            text.push_str(" 8800000000000001")?;
        }
        text.push_str("\nsettle 3 8800000000000002")?;
        let script = Script::parse(rt.alloc(), text.as_str())?;
        let term = Part {
            start: 0,
            end: 1025,
        };
        let claim = Part {
            start: 1025,
            end: 1026,
        };
        let lines = [Line::Open(term), Line::Settle { ticket: 3, claim }];
        assert_eq!(rt; script.lines.as_slice(), lines.as_slice());
        assert_eq!(rt;
            term.of(&script.cells),
            [0x8800_0000_0000_0001; 1025].as_slice()
        );
        assert_eq!(rt; claim.of(&script.cells), [0x8800_0000_0000_0002].as_slice());
        Ok(())
    }

    #[test]
    fn tells_the_first_bad_line(rt: HostRuntime) -> Result<(), Fail> {
        let scripts = [
            ("", 1),
            ("tell", 1),
            ("\n\n", 3),
            ("calculus 1", 1),
            ("calculus 2\nopen 12", 2),
            ("calculus 2\n\nmemory 1 4097 1", 3),
            ("calculus 2\nstep 1 2 1..0 -", 2),
            ("calculus 2\ntell now", 2),
        ];
        for (text, line) in scripts {
            let fault = Script::parse(rt.alloc(), text).err().ok_or("read")?;
            assert_eq!(rt; fault, Fault::Line(line));
        }
        let fault = Script::parse(rt.alloc(), "calculus 3").err().ok_or("read")?;
        assert_eq!(rt;
            fault.to_string(rt.alloc())?.as_str(),
            "line 1: not understood"
        );
        Ok(())
    }
}
