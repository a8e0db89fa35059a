// Lists of calls on good and bad input, a line for each: what a run over let-rewriting answers to the last call.
#![tactic(auto)]

use layout::Walk;
use rewriting::LetRewriting;
use runs::call::{Call, Lent};
use runs::replay::replay;
use runs::step::Step;

// Constructor 1 with no child, and over one.
const LEAF: u64 = (32 << 58) + 1;

const OVER: u64 = (32 << 58) + (1 << 48) + 1;

// A place of 511 entries.
const LONG: [u8; 511] = [0; 511];

// The memory that suffices, and none.
const ENOUGH: Lent = Lent::ENOUGH;

const NOTHING: Lent = Lent {
    table: 0,
    scratch: 0,
    walk: 0,
};

// Performs the calls on a fresh run, and prints the last answer. Answers how many cells of scratch are not zero then.
fn show(rt: &HostRuntime, name: &str, calls: &[Call]) -> anyhow::Result<usize> {
    let lets = LetRewriting::new(Vec::new(rt.alloc()));
    let mut table = vec![in rt.alloc(); u64::MAX; 4096]?;
    let mut scratch = vec![in rt.alloc(); u64::MAX; 4096]?;
    let mut walk = vec![in rt.alloc(); Walk::default(); 256]?;
    let said = replay(rt.alloc(), lets, calls, &mut table, &mut scratch, &mut walk)?;
    match said.last().map(|last| last.answer) {
        Some(Ok(done)) => println!(rt; "{name}: {done}")?,
        Some(Err(refusal)) => println!(rt; "{name}: {refusal}")?,
        None => {}
    }
    Ok(scratch.iter().filter(|c| **c != 0).count())
}

// An opening with so much memory.
fn opening(rt: &HostRuntime, name: &str, lent: Lent) -> anyhow::Result<usize> {
    show(rt, name, &[Call::Open(&[LEAF], lent)])
}

// Memories just below and at what is needed.
fn memories(rt: &HostRuntime) -> anyhow::Result<()> {
    opening(rt, "no memory", NOTHING)?;
    opening(
        rt,
        "a table of 2,047 cells",
        Lent {
            table: 2047,
            ..ENOUGH
        },
    )?;
    opening(
        rt,
        "scratch of 2,047 cells",
        Lent {
            scratch: 2047,
            ..ENOUGH
        },
    )?;
    opening(
        rt,
        "a walk list of 255 records",
        Lent {
            walk: 255,
            ..ENOUGH
        },
    )?;
    opening(rt, "just enough", ENOUGH)?;
    let kept = opening(
        rt,
        "scratch of 4,096 cells",
        Lent {
            scratch: 4096,
            ..ENOUGH
        },
    )?;
    println!(rt; "cells of it that are not zero then: {kept}")?;
    Ok(())
}

// Openings and withdrawals, one after the other, and then one opening more.
fn openings(rt: &HostRuntime, name: &str, count: u16) -> anyhow::Result<()> {
    let mut calls = Vec::new(rt.alloc());
    for ticket in 0..count {
        calls.push(Call::Open(&[LEAF], ENOUGH))?;
        calls.push(Call::Withdraw(ticket + 1))?;
    }
    calls.push(Call::Open(&[LEAF], ENOUGH))?;
    show(rt, name, &calls)?;
    Ok(())
}

// An opening, and then a call.
fn after_opening(rt: &HostRuntime, name: &str, call: Call) -> anyhow::Result<()> {
    show(rt, name, &[Call::Open(&[OVER, LEAF], ENOUGH), call])?;
    Ok(())
}

// Tickets and claims.
fn settlements(rt: &HostRuntime) -> anyhow::Result<()> {
    show(rt, "no opening yet", &[Call::Withdraw(1)])?;
    after_opening(rt, "a second opening", Call::Open(&[LEAF], ENOUGH))?;
    after_opening(rt, "another ticket", Call::Settle(2, &[OVER, LEAF], ENOUGH))?;
    after_opening(rt, "ticket 0", Call::Withdraw(0))?;
    after_opening(rt, "an empty claim", Call::Settle(1, &[], ENOUGH))?;
    after_opening(rt, "a claim cut off", Call::Settle(1, &[OVER], ENOUGH))?;
    after_opening(rt, "the claim", Call::Settle(1, &[OVER, LEAF], ENOUGH))?;
    after_opening(rt, "another claim", Call::Settle(1, &[LEAF], ENOUGH))
}

// Starts, places and rules.
fn steps(rt: &HostRuntime) -> anyhow::Result<()> {
    let step = Step {
        rule: 4,
        place: &[0],
        argument: 0,
        inner: &[],
    };
    let long_place = Step {
        place: &LONG,
        ..step
    };
    let long_inner = Step {
        inner: &LONG,
        ..step
    };
    let no_rule = Step { rule: 255, ..step };
    show(rt, "an empty start", &[Call::Open(&[], ENOUGH)])?;
    after_opening(rt, "a place of 511 entries", Call::Step(long_place, ENOUGH))?;
    after_opening(
        rt,
        "an inner place of 511 entries",
        Call::Step(long_inner, ENOUGH),
    )?;
    after_opening(rt, "a rule that is none", Call::Step(no_rule, ENOUGH))
}

fn main(rt: HostRuntime) -> anyhow::Result<()> {
    memories(&rt)?;
    settlements(&rt)?;
    steps(&rt)?;
    openings(&rt, "opening 65,535", 65_534)?;
    openings(&rt, "opening 65,536", 65_535)
}
