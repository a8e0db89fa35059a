// The calls of a run.
ghost use Rattle.std.specs.Prelude.{◌≡◌, ℕ, ◌≤◌, List, length, Decides};
ghost use Rattle.runs.specs.Chain.{fresh, Enough, told as tells_of};
ghost use Rattle.runs.specs.Rewriting.{step_of};
ghost use Rattle.runs.specs.Calls.{OpenAsked, StepAsked, SettleAsked, WithdrawAsked, chain_of};

use crate::call::{Settlement, Told};
use crate::clean::Clean;
use crate::refusal::Refusal;
use crate::run::Run;
use crate::step::Step;
use crate::table::{compare, put};
use crate::ticket::Ticket;
use calculus::Calculus;
use layout::{CELLS_MOST, DEPTH_MOST, Walk};

// 1: have table, scratch and walk list enough cells and records?
pub fn is_enough(table: usize, scratch: usize, walk: usize) -> bool
    ensures { Decides result (Enough (record { table = table; scratch = scratch; walk = walk })) }
{
    table >= CELLS_MOST && scratch >= CELLS_MOST && walk >= DEPTH_MOST
}

impl<C: Calculus> Run<C> {
    // An idle run over a calculus, never opened.
    pub fn new(calculus: C) -> Run<C>
        ensures same { result.calculus ≡ calculus }
        ensures fresh { (table : List ℕ) → chain_of result table ≡ fresh }
    {
        Run {
            calculus,
            told: Told::default(),
        }
    }

    // State, openings, and the last opening's steps and cells.
    pub fn tell(&self) -> Told
        ensures { (table : List ℕ) → self.now.told.cells ≤ length table → result ≡ tells_of (chain_of self.now table) }
    {
        self.told
    }

    // 1 to 5: puts the start on the table, and hands out a ticket.
    pub fn open(
        &mut self,
        start: &[u64],
        table: &mut [u64],
        scratch: &mut [u64],
        walk: &mut [Walk],
    ) -> Result<Ticket, Refusal>
        ensures { OpenAsked (C.Calculus.meaning self.old.calculus) self.old self.new start.now table.old table.new scratch.old scratch.new walk.old walk.new result }
    {
        if !is_enough(table.len(), scratch.len(), walk.len()) {
            return Err(Refusal::Memory);
        }
        let _clean = Clean { cells: scratch };
        let next = self.may_open(start, walk.first_chunk_mut().unwrap())?;
        self.told = Told {
            state: next,
            openings: self.told.openings + 1,
            steps: 0,
            cells: start.len(),
        };
        put(start, table);
        Ok(Ticket {
            number: self.told.openings,
        })
    }

    // 1, 6 to 16: takes a step on the table.
    pub fn step(
        &mut self,
        step: Step,
        table: &mut [u64],
        scratch: &mut [u64],
        walk: &mut [Walk],
    ) -> Result<(), Refusal>
        ensures { StepAsked (C.Calculus.meaning self.old.calculus) self.old self.new (step_of step.entry) table.old table.new scratch.old scratch.new walk.old walk.new result }
    {
        if !is_enough(table.len(), scratch.len(), walk.len()) {
            return Err(Refusal::Memory);
        }
        let clean = Clean { cells: scratch };
        let space = clean.cells.first_chunk_mut().unwrap();
        let term = &table[..self.told.cells];
        let (next, cells) = self.may_step(step, term, space, walk.first_chunk_mut().unwrap())?;
        self.told = Told {
            state: next,
            steps: self.told.steps.saturating_add(1),
            cells,
            ..self.told
        };
        put(&space[..cells], table);
        Ok(())
    }

    // 1, 6, 17, 7, and the claim's 4 and 5: compares the claim with the table's term.
    pub fn settle<'s>(
        &mut self,
        ticket: Ticket,
        claim: &'s [u64],
        table: &'s [u64],
        scratch: &mut [u64],
        walk: &mut [Walk],
    ) -> Result<Settlement, (Refusal, Ticket)>
        ensures { SettleAsked (C.Calculus.meaning self.old.calculus) self.old self.new ticket claim.now table.now scratch.old scratch.new walk.old walk.new result }
    {
        if !is_enough(table.len(), scratch.len(), walk.len()) {
            return Err((Refusal::Memory, ticket));
        }
        let _clean = Clean { cells: scratch };
        let term = &table[..self.told.cells];
        // A match, and no `map_err`: the ticket is spent or handed back.
        match self.may_settle(&ticket, claim, term, walk.first_chunk_mut().unwrap()) {
            Ok(next) => {
                self.told.state = next;
                ticket.spend();
                Ok(compare(claim, term))
            }
            Err(refusal) => Err((refusal, ticket)),
        }
    }

    // 6 and 17: gives the opening up.
    pub fn withdraw(&mut self, ticket: Ticket) -> Result<(), (Refusal, Ticket)>
        ensures { WithdrawAsked (C.Calculus.meaning self.old.calculus) self.old self.new ticket result }
    {
        // As in `settle`.
        match self.may_withdraw(&ticket) {
            Ok(next) => {
                self.told.state = next;
                ticket.spend();
                Ok(())
            }
            Err(refusal) => Err((refusal, ticket)),
        }
    }
}
