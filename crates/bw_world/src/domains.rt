ghost use Rattle.std.specs.Prelude.{◌≡◌, ◌<◌, length, position, IsTrue, IfOk, IfSome, OnOk, OnErr};
ghost use Rattle.bw_world.specs.declared.step.Outcome.TheVariants.{Done};
ghost use Rattle.bw_world.specs.declared.step.Step.TheVariants.{Load, Take, Regrade, Give, Enter, Release, Limit, Move};
ghost use Rattle.bw_world.specs.ExactWord.{IsExact};
ghost use Rattle.bw_world.specs.DomainStep.{is_live_in};
ghost use Rattle.bw_world.specs.WorldStep.{is_live, stepped};
ghost use Rattle.bw_world.specs.Growing.{lengthens, IsGrowing};

use crate::domain::Domain;
use crate::step::{Outcome, Step, WIDEST, Word};
use limits::UNIT;
use no_memory::NoMemory;
use std::mem;

// Whether the ticket is live in some domain.
fn is_live(domains: &[Domain], id: u64) -> bool
    ensures { result ≡ is_live id domains.now }
{
    domains.iter().any(|d| d.is_live(id))
}

// The index of the domain in which the ticket is live.
fn home_of(domains: &[Domain], id: u64) -> Option<usize>
    ensures home { result ≡ position (is_live_in id) domains.now }
    ensures within { IfSome result (λ k. k < length domains.now) }
{
    domains.iter().position(|d| d.is_live(id))
}

// Load, which changes nothing.
fn load(domains: &[Domain], domain: usize) -> Outcome
    ensures outcome { result ≡ (stepped (Load domain) domains.now).outcome }
    ensures unchanged { (stepped (Load domain) domains.now).domains ≡ domains.now }
{
    match domains.get(domain) {
        Some(d) => Outcome::Saw(d.word()),
        None => Outcome::Not,
    }
}

// Take. The domain takes the ticket, where it may be taken at all.
fn take(
    domains: &mut Vec<Domain>,
    ticket: u64,
    domain: usize,
    bw: u64,
    expected: Word,
) -> Result<Outcome, NoMemory>
    requires { IsExact domains.old.items }
    ensures outcome { IfOk result (λ outcome.
        outcome ≡ (stepped (Take ticket domain bw expected) domains.old.items).outcome) }
    ensures domains { OnOk result (
        domains.new.items ≡ (stepped (Take ticket domain bw expected) domains.old.items).domains) }
    ensures err { OnErr result (domains.new.items ≡ domains.old.items) }
    ensures err_only { OnErr result (IsGrowing (Take ticket domain bw expected) domains.old.items) }
{
    if bw > UNIT || is_live(domains.as_slice(), ticket) || domain >= domains.len() {
        return Ok(Outcome::Not);
    }
    let d = &mut domains[domain];
    d.take(ticket, bw, expected)
}

// Regrade, in the domain in which the ticket is live.
fn regrade(
    domains: &mut Vec<Domain>,
    ticket: u64,
    bw: u64,
    expected: Word,
) -> Result<Outcome, NoMemory>
    requires { IsExact domains.old.items }
    ensures outcome { IfOk result (λ outcome.
        outcome ≡ (stepped (Regrade ticket bw expected) domains.old.items).outcome) }
    ensures domains { OnOk result (
        domains.new.items ≡ (stepped (Regrade ticket bw expected) domains.old.items).domains) }
    ensures err { OnErr result (domains.new.items ≡ domains.old.items) }
    ensures err_done { OnErr result (
        (stepped (Regrade ticket bw expected) domains.old.items).outcome ≡ Done) }
    ensures err_longer { OnErr result (
        IsTrue (lengthens (Regrade ticket bw expected) domains.old.items)) }
{
    let Some(k) = home_of(domains.as_slice(), ticket) else {
        return Ok(Outcome::Not);
    };
    let d = &mut domains[k];
    d.regrade(ticket, bw, expected)
}

// Give, in the domain in which the ticket is live.
fn give(domains: &mut Vec<Domain>, ticket: u64) -> Outcome
    requires { IsExact domains.old.items }
    ensures outcome { result ≡ (stepped (Give ticket) domains.old.items).outcome }
    ensures domains { domains.new.items ≡ (stepped (Give ticket) domains.old.items).domains }
{
    let Some(k) = home_of(domains.as_slice(), ticket) else {
        return Outcome::Not;
    };
    let d = &mut domains[k];
    d.give(ticket)
}

// Enter, in the domain in which the ticket is live.
fn enter(domains: &mut Vec<Domain>, ticket: u64, number: u32) -> Result<Outcome, NoMemory>
    ensures outcome { IfOk result (λ outcome.
        outcome ≡ (stepped (Enter ticket number) domains.old.items).outcome) }
    ensures domains { OnOk result (
        domains.new.items ≡ (stepped (Enter ticket number) domains.old.items).domains) }
    ensures err { OnErr result (domains.new.items ≡ domains.old.items) }
    ensures err_only { OnErr result (IsGrowing (Enter ticket number) domains.old.items) }
{
    let Some(k) = home_of(domains.as_slice(), ticket) else {
        return Ok(Outcome::Not);
    };
    let d = &mut domains[k];
    d.enter(ticket, number)
}

// Release, in the domain in which the ticket is live.
fn release(domains: &mut Vec<Domain>, ticket: u64) -> Result<Outcome, NoMemory>
    ensures outcome { IfOk result (λ outcome.
        outcome ≡ (stepped (Release ticket) domains.old.items).outcome) }
    ensures domains { OnOk result (
        domains.new.items ≡ (stepped (Release ticket) domains.old.items).domains) }
    ensures err { OnErr result (domains.new.items ≡ domains.old.items) }
    ensures err_only { OnErr result (IsGrowing (Release ticket) domains.old.items) }
{
    let Some(k) = home_of(domains.as_slice(), ticket) else {
        return Ok(Outcome::Not);
    };
    let d = &mut domains[k];
    d.release(ticket)
}

// Limit, which lengthens no list.
fn limit(domains: &mut Vec<Domain>, domain: usize, cap: u64, expected: Word) -> Outcome
    ensures outcome { result ≡ (stepped (Limit domain cap expected) domains.old.items).outcome }
    ensures domains { domains.new.items
        ≡ (stepped (Limit domain cap expected) domains.old.items).domains }
{
    if cap > WIDEST || domain >= domains.len() {
        return Outcome::Not;
    }
    let d = &mut domains[domain];
    d.limit(cap, expected)
}

// Move, between the domains in which the tickets are live.
fn move_task(
    domains: &mut Vec<Domain>,
    old: u64,
    new: u64,
    number: u32,
) -> Result<Outcome, NoMemory>
    ensures outcome { IfOk result (λ outcome.
        outcome ≡ (stepped (Move old new number) domains.old.items).outcome) }
    ensures domains { OnOk result (
        domains.new.items ≡ (stepped (Move old new number) domains.old.items).domains) }
    ensures err { OnErr result (domains.new.items ≡ domains.old.items) }
    ensures err_only { OnErr result (IsGrowing (Move old new number) domains.old.items) }
{
    let Some(from) = home_of(domains.as_slice(), old) else {
        return Ok(Outcome::Not);
    };
    let Some(to) = home_of(domains.as_slice(), new) else {
        return Ok(Outcome::Not);
    };
    let left = &domains[from];
    let Some(task) = left.task_to_move(&domains[to], old, new, number) else {
        return Ok(Outcome::Not);
    };
    let none = Domain::open(*domains.allocator(), 0);
    let mut left = mem::replace(&mut domains[from], none);
    let made = left.hand_over(&mut domains[to], old, new, task);
    domains[from] = left;
    made?;
    Ok(Outcome::Done)
}

/// Applies one step to the domains of a world. After an `Err` they are as they were.
pub(crate) fn apply(domains: &mut Vec<Domain>, step: Step) -> Result<Outcome, NoMemory>
    requires { IsExact domains.old.items }
    ensures outcome { IfOk result (λ outcome. outcome ≡ (stepped step domains.old.items).outcome) }
    ensures domains { OnOk result (domains.new.items ≡ (stepped step domains.old.items).domains) }
    ensures err { OnErr result (domains.new.items ≡ domains.old.items) }
    ensures err_only { OnErr result (IsGrowing step domains.old.items) }
{
    match step {
        Step::Load { domain } => Ok(load(domains.as_slice(), domain)),
        Step::Take {
            ticket,
            domain,
            bw,
            expected,
        } => take(domains, ticket, domain, bw, expected),
        Step::Regrade {
            ticket,
            bw,
            expected,
        } => regrade(domains, ticket, bw, expected),
        Step::Give { ticket } => Ok(give(domains, ticket)),
        Step::Enter { ticket, number } => enter(domains, ticket, number),
        Step::Release { ticket } => release(domains, ticket),
        Step::Limit {
            domain,
            cap,
            expected,
        } => Ok(limit(domains, domain, cap, expected)),
        Step::Move { old, new, number } => move_task(domains, old, new, number),
    }
}
