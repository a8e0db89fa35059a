// Reads a script of calls from standard input, performs it on a fresh run, and prints a line for each call.
#![tactic(auto)]

use layout::Walk;
use rewriting::LetRewriting;
use runs::call::{Call, Lent, Said, Told};
use runs::replay::replay;
use runs::step::Step;
use script::Script;
use script::line::Line;
use std::fmt;
use std::io::Read;

// The most bytes of a script, and the cells and records of each memory.
const BYTES_MOST: u64 = 16_777_216;

const MEMORY: usize = 4096;

// The cells of a table, as they are printed.
#[derive(Clone, Copy)]
struct Cells<'t>(&'t [u64]);

impl fmt::Display for Cells<'_> {
    fn fmt<W: fmt::Write>(&self, f: &mut fmt::Formatter<W>) -> fmt::Result {
        for (i, cell) in self.0.iter().enumerate() {
            if i > 0 {
                f.write_str(" ")?;
            }
            write!(f, "{cell:016x}")?;
        }
        Ok(())
    }
}

// The calls of some lines of a script, each with the memory that it is handed.
fn calls<'s>(
    rt: &HostRuntime,
    script: &'s Script,
    lines: &[Line],
) -> anyhow::Result<Vec<Call<'s>>> {
    let mut lent = Lent::ENOUGH;
    let mut calls = Vec::new(rt.alloc());
    for line in lines {
        match *line {
            Line::Memory {
                table,
                scratch,
                walk,
            } => {
                lent = Lent {
                    table,
                    scratch,
                    walk,
                }
            }
            Line::Open(term) => calls.push(Call::Open(term.of(&script.cells), lent))?,
            Line::Step {
                rule,
                argument,
                place,
                inner,
            } => {
                let step = Step {
                    rule,
                    place: place.of(&script.entries),
                    argument,
                    inner: inner.of(&script.entries),
                };
                calls.push(Call::Step(step, lent))?
            }
            Line::Settle { ticket, claim } => {
                calls.push(Call::Settle(ticket, claim.of(&script.cells), lent))?
            }
            Line::Withdraw(ticket) => calls.push(Call::Withdraw(ticket))?,
            Line::Tell | Line::Table(_) => {}
        }
    }
    Ok(calls)
}

// Performs the calls of some lines on a fresh run and a table of ones: what is said to each, and the table then.
fn perform(
    rt: &HostRuntime,
    script: &Script,
    lines: &[Line],
) -> anyhow::Result<(Vec<Said>, Vec<u64>)> {
    let calls = calls(rt, script, lines)?;
    let calculus = LetRewriting::new(Vec::from_slice(rt.alloc(), &script.program)?);
    let mut table = vec![in rt.alloc(); u64::MAX; MEMORY]?;
    let mut scratch = vec![in rt.alloc(); 0; MEMORY]?;
    let mut walk = vec![in rt.alloc(); Walk::default(); MEMORY]?;
    let said = replay(
        rt.alloc(),
        calculus,
        &calls,
        &mut table,
        &mut scratch,
        &mut walk,
    )?;
    Ok((said, table))
}

// Prints what was said to a call.
fn show_answer(rt: &HostRuntime, said: Said) -> anyhow::Result<()> {
    match said.answer {
        Ok(done) => println!(rt; "{done}")?,
        Err(refusal) => println!(rt; "{refusal}")?,
    }
    Ok(())
}

// Prints the first n cells of the table after some lines.
fn show_table(rt: &HostRuntime, script: &Script, lines: &[Line], n: usize) -> anyhow::Result<()> {
    let (_, table) = perform(rt, script, lines)?;
    let cells = Cells(table.get(..n).unwrap_or(&table));
    println!(rt; "{cells}")?;
    Ok(())
}

// Performs a script, and prints a line for each call and question. What is said to the calls comes in their order.
fn show(rt: &HostRuntime, script: &Script) -> anyhow::Result<()> {
    let lines = script.lines.as_slice();
    let (said, _) = perform(rt, script, lines)?;
    let mut said = said.iter();
    let mut told = Told::default();
    for (i, line) in lines.iter().enumerate() {
        match line {
            Line::Memory { .. } => {}
            Line::Tell => println!(rt; "{told}")?,
            Line::Table(n) => show_table(rt, script, &lines[..i], *n)?,
            Line::Open(_) | Line::Step { .. } | Line::Settle { .. } | Line::Withdraw(_) => {
                if let Some(said) = said.next() {
                    show_answer(rt, *said)?;
                    told = said.tells;
                }
            }
        }
    }
    Ok(())
}

fn main(rt: HostRuntime) -> anyhow::Result<()> {
    let mut text = String::new(rt.alloc());
    rt.stdin().take(BYTES_MOST).read_to_string(&mut text)?;
    match Script::parse(rt.alloc(), text.as_str()) {
        Ok(script) => {
            drop(text);
            show(&rt, &script)
        }
        Err(fault) => {
            println!(rt; "{fault}")?;
            Ok(())
        }
    }
}
