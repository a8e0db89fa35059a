// A list of calls, made one after the other on a fresh run.
ghost use Rattle.std.specs.Prelude.{◌≡◌, length, replicate, Ok, Err};
ghost use Rattle.runs.specs.Chain.{withdrawing};
ghost use Rattle.runs.specs.Theorem.{Replayed, Part};
ghost use Rattle.runs.specs.Calls.{event_of, events_of, handed, lent_of};
ghost use Rattle.runs.specs.Performed.{Performed};

use crate::call::{Call, Done, Lent, Said};
use crate::clean::Clean;
use crate::refusal::Refusal;
use crate::run::Run;
use crate::step::Step;
use crate::ticket::Ticket;
use calculus::Calculus;
use layout::Walk;
use std::alloc::{AllocError, Global};

// What a call is handed of the memory there is.
fn clipped(lent: Lent, table: &[u64], scratch: &[u64], walk: &[Walk]) -> Lent
    ensures { result ≡ handed (lent_of table.now scratch.now walk.now) lent }
{
    Lent {
        table: lent.table.min(table.len()),
        scratch: lent.scratch.min(scratch.len()),
        walk: lent.walk.min(walk.len()),
    }
}

// Table, scratch and walk list stay three parameters: a struct of three `&mut` would ask for a clause on the length and the loan of each in every function, and settlement only reads the table.
// Makes an opening with what it is handed of the memory, and spends the ticket: later calls name theirs by number.
fn make_opening<C: Calculus>(
    run: &mut Run<C>,
    start: &[u64],
    lent: Lent,
    table: &mut [u64],
    scratch: &mut [u64],
    walk: &mut [Walk],
) -> Result<Done, Refusal>
    ensures { Performed (C.Calculus.meaning run.old.calculus) run.old run.new table.old table.new (event_of (lent_of table.old scratch.old walk.old) (Call.Open start.entry lent)) result }
{
    let l = clipped(lent, table, scratch, walk);
    let ticket = run.open(
        start,
        &mut table[..l.table],
        &mut scratch[..l.scratch],
        &mut walk[..l.walk],
    )?;
    Ok(Done::Opened(ticket.spend()))
}

// Makes a step so.
fn make_step<C: Calculus>(
    run: &mut Run<C>,
    step: Step,
    lent: Lent,
    table: &mut [u64],
    scratch: &mut [u64],
    walk: &mut [Walk],
) -> Result<Done, Refusal>
    ensures { Performed (C.Calculus.meaning run.old.calculus) run.old run.new table.old table.new (event_of (lent_of table.old scratch.old walk.old) (Call.Step step.entry lent)) result }
{
    let l = clipped(lent, table, scratch, walk);
    run.step(
        step,
        &mut table[..l.table],
        &mut scratch[..l.scratch],
        &mut walk[..l.walk],
    )?;
    Ok(Done::Stepped)
}

// Spends the ticket that a refused call hands back.
fn spent(back: (Refusal, Ticket)) -> Refusal
    ensures { result ≡ back.0 }
{
    let (refusal, ticket) = back;
    ticket.spend();
    refusal
}

// Makes a settlement so, with a ticket of the number that is named.
fn make_settlement<'s, C: Calculus>(
    run: &mut Run<C>,
    number: u16,
    claim: &'s [u64],
    lent: Lent,
    table: &'s [u64],
    scratch: &mut [u64],
    walk: &mut [Walk],
) -> Result<Done, Refusal>
    ensures { Performed (C.Calculus.meaning run.old.calculus) run.old run.new table.now table.now (event_of (lent_of table.now scratch.old walk.old) (Call.Settle number claim.entry lent)) result }
{
    let l = clipped(lent, table, scratch, walk);
    let settlement = run
        .settle(
            Ticket { number },
            claim,
            &table[..l.table],
            &mut scratch[..l.scratch],
            &mut walk[..l.walk],
        )
        .map_err(spent)?;
    Ok(Done::Settled(settlement))
}

// Makes a withdrawal so.
fn make_withdrawal<C: Calculus>(
    run: &mut Run<C>,
    number: u16,
    table: &[u64],
) -> Result<Done, Refusal>
    ensures { Performed (C.Calculus.meaning run.old.calculus) run.old run.new table.now table.now (withdrawing number) result }
{
    run.withdraw(Ticket { number }).map_err(spent)?;
    Ok(Done::Withdrawn)
}

// Makes a call.
fn make<C: Calculus>(
    run: &mut Run<C>,
    call: Call,
    table: &mut [u64],
    scratch: &mut [u64],
    walk: &mut [Walk],
) -> Result<Done, Refusal>
    ensures { Performed (C.Calculus.meaning run.old.calculus) run.old run.new table.old table.new (event_of (lent_of table.old scratch.old walk.old) call.entry) result }
{
    match call {
        Call::Open(start, lent) => make_opening(run, start, lent, table, scratch, walk),
        Call::Step(step, lent) => make_step(run, step, lent, table, scratch, walk),
        Call::Settle(number, claim, lent) => make_settlement(
            run, number, claim, lent, table, scratch, walk,
        ),
        Call::Withdraw(number) => make_withdrawal(run, number, table),
    }
}

// Makes the calls in turn, and says to each what it is answered and what the run then tells.
fn make_all<C: Calculus>(
    heap: Global,
    calculus: C,
    calls: &[Call],
    table: &mut [u64],
    scratch: &mut [u64],
    walk: &mut [Walk],
) -> Result<Vec<Said>, AllocError>
where
    C: Drop,
    ensures { elim result [ Ok said ↦ Replayed (C.Calculus.meaning calculus) (events_of table.old scratch.old walk.old calls.now) said.items table.old table.new | Err e ↦ Part (C.Calculus.meaning calculus) (events_of table.old scratch.old walk.old calls.now) table.old table.new ] }
{
    let mut run = Run::new(calculus);
    let mut said = Vec::new(heap);
    for call in calls {
        let answer = make(&mut run, *call, table, scratch, walk);
        let tells = run.tell();
        said.push(Said { answer, tells })?;
    }
    Ok(said)
}

// A list of calls on a fresh run: every answer is the chain's, the table holds what the calls leave there, and scratch holds zeros.
pub fn replay<C: Calculus>(
    heap: Global,
    calculus: C,
    calls: &[Call],
    table: &mut [u64],
    scratch: &mut [u64],
    walk: &mut [Walk],
) -> Result<Vec<Said>, AllocError>
where
    C: Drop,
    ensures theorem { elim result [ Ok said ↦ Replayed (C.Calculus.meaning calculus) (events_of table.old scratch.old walk.old calls.now) said.items table.old table.new | Err e ↦ Part (C.Calculus.meaning calculus) (events_of table.old scratch.old walk.old calls.now) table.old table.new ] }
    ensures clean { scratch.new ≡ replicate (length scratch.old) 0 }
{
    let clean = Clean { cells: scratch };
    make_all(heap, calculus, calls, table, clean.cells, walk)
}
