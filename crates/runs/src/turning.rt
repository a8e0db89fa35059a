// How a run turns: its state meets what a call asks, and then come the other questions past 1.
ghost use Rattle.std.specs.Prelude.{[], ◌∷◌};
ghost use Rattle.runs.specs.declared.call.State.TheVariants.{Idle, Open};
ghost use Rattle.runs.specs.Asked.{Asked, Turned, state_question, state_after, ticket_question, open_questions, settle_questions, withdraw_questions};
ghost use Rattle.runs.specs.Rewriting.{StepAnswered, step_of};

use crate::asking::{held, judged};
use crate::call::State;
use crate::refusal::Refusal;
use crate::rewriting::rewrite_within;
use crate::run::Run;
use crate::step::Step;
use crate::ticket::Ticket;
use calculus::Calculus;
use layout::{CELLS_MOST, DEPTH_MOST, Walk};

// The most openings of a run.
pub const OPENINGS_MOST: u16 = 65_535;

// What a call asks of a run.
#[derive(Clone, Copy, PartialEq, Eq, Debug)]
pub enum Event {
    Open,
    Step,
    Settle,
    Withdraw,
}

impl State {
    // 2 and 6: the state that an accepted call leaves.
    pub fn after(self, event: Event) -> Result<State, Refusal>
        ensures { Turned (state_after event) (state_question self event ∷ []) result }
    {
        match (self, event) {
            (State::Idle, Event::Open) | (State::Open, Event::Step) => Ok(State::Open),
            (State::Open, Event::Settle | Event::Withdraw) => Ok(State::Idle),
            (State::Open, Event::Open) => Err(Refusal::NotIdle),
            (State::Idle, Event::Step | Event::Settle | Event::Withdraw) => Err(Refusal::NotOpen),
        }
    }
}

impl<C: Calculus> Run<C> {
    // 2 to 5: the state that an opening with this start leaves.
    pub(crate) fn may_open(
        &self,
        start: &[u64],
        walk: &mut [Walk; DEPTH_MOST],
    ) -> Result<State, Refusal>
        ensures { Turned Open (open_questions (C.Calculus.meaning self.now.calculus) self.now.told.state self.now.told.openings start.now) result }
    {
        let next = self.told.state.after(Event::Open)?;
        if self.told.openings == OPENINGS_MOST {
            return Err(Refusal::Exhausted);
        }
        judged(&self.calculus, start, walk)?;
        Ok(next)
    }

    // 6 to 16: the state that the step leaves, and how many cells the term has that it leads to.
    pub(crate) fn may_step(
        &self,
        step: Step,
        term: &[u64],
        space: &mut [u64; CELLS_MOST],
        walk: &mut [Walk; DEPTH_MOST],
    ) -> Result<(State, usize), Refusal>
        ensures { StepAnswered (C.Calculus.meaning self.now.calculus) term.now (step_of step.entry) self.now.told.state space.new result }
    {
        let next = self.told.state.after(Event::Step)?;
        held(&self.calculus, term, walk)?;
        let cells = rewrite_within(&self.calculus, step, term, space, walk)?;
        Ok((next, cells))
    }

    // 17: has the ticket this opening's number?
    fn has_ticket(&self, ticket: &Ticket) -> Result<(), Refusal>
        ensures { Asked (ticket_question ticket.now.number self.now.told.openings) result }
    {
        if ticket.number != self.told.openings {
            return Err(Refusal::WrongTicket);
        }
        Ok(())
    }

    // 6 and 17: the state that a withdrawal leaves.
    pub(crate) fn may_withdraw(&self, ticket: &Ticket) -> Result<State, Refusal>
        ensures { Turned Idle (withdraw_questions self.now.told.state ticket.now.number self.now.told.openings) result }
    {
        let next = self.told.state.after(Event::Withdraw)?;
        self.has_ticket(ticket)?;
        Ok(next)
    }

    // 6, 17, 7, and the claim's 4 and 5: the state that a settlement of this claim leaves.
    pub(crate) fn may_settle(
        &self,
        ticket: &Ticket,
        claim: &[u64],
        term: &[u64],
        walk: &mut [Walk; DEPTH_MOST],
    ) -> Result<State, Refusal>
        ensures { Turned Idle (settle_questions (C.Calculus.meaning self.now.calculus) self.now.told.state ticket.now.number self.now.told.openings term.now claim.now) result }
    {
        let next = self.told.state.after(Event::Settle)?;
        self.has_ticket(ticket)?;
        held(&self.calculus, term, walk)?;
        judged(&self.calculus, claim, walk)?;
        Ok(next)
    }
}
