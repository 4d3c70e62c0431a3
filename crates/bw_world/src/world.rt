use crate::book::Change;
use crate::domain::Domain;
use crate::domains;
use crate::step::{Outcome, Step};
use no_memory::NoMemory;
use std::alloc::Global;
use std::marker::Model;

/// Up to eight root domains, each with its bandwidth word, tickets, admitted tasks and book. To a
/// contract it is plain lists.
#[derive(Drop)]
pub struct World {
    domains: Vec<Domain>,
    applied: usize,
}

impl Model for World {
    ghost use Rattle.bw_world.specs.WorldView.{WorldView};
    ghost use Rattle.bw_world.specs.ExactWord.{IsExact};

    ghost Value = { WorldView };

    ghost view = { λ w. record { domains = w.domains.items; applied = w.applied } };

    ghost invariant = { λ w. IsExact w.domains.items };
}

impl World {
    ghost use Rattle.std.specs.Prelude.{◌≡◌, ◌<◌, ◌≤◌, ◌^◌, ℕ, length, slice_get, take, All, MatchOption, IsSomeAnd, IfOk, OnOk, OnErr};
    ghost use Rattle.bw_world.specs.WorldStep.{opened_world, stepped, after_steps, outcomes_of};
    ghost use Rattle.bw_world.specs.Growing.{IsGrowing, IsGrowingAt};
    ghost use Rattle.bw_world.specs.ExactWord.{IsExact};

    /// A world of one to eight domains, by their caps in 1/2^20 of a CPU, at most 2^26 each, with
    /// no ticket and no task: the words carry these caps, and nothing is used of them. [`NoMemory`]
    /// (ENOMEM 12) where there is no room for the list of domains: nothing stands.
    pub fn open(alloc: Global, caps: &[u64]) -> Result<World, NoMemory>
        requires some { 0 < length caps.now }
        requires few { length caps.now ≤ 8 }
        requires small { All (λ cap. cap ≤ 2 ^ 26) caps.now }
        ensures opened { IfOk result (λ world. world ≡ opened_world caps.now) }
        ensures exact { IfOk result (λ world. IsExact world.domains) }
    {
        let mut domains = Vec::with_capacity(alloc, caps.len())?;
        for cap in caps {
            domains.push_reserved(Domain::open(alloc, *cap));
        }
        Ok(World {
            domains,
            applied: 0,
        })
    }

    /// Applies one step. After an `Err` the world is as it was; it comes only where a step that
    /// would be done wants room for a ticket, a task or a change of the book.
    pub fn apply(&mut self, step: Step) -> Result<Outcome, NoMemory>
        ensures outcome { IfOk result (λ outcome.
            outcome ≡ (stepped step self.old.domains).outcome) }
        ensures world { OnOk result (
            self.new ≡ record self.old { domains = (stepped step self.old.domains).domains }) }
        ensures err { OnErr result (self.new ≡ self.old) }
        ensures err_only { OnErr result (IsGrowing step self.old.domains) }
        ensures exact { IsExact self.new.domains }
    {
        domains::apply(&mut self.domains, step)
    }

    /// Applies steps, one after another, and gives the answer to each. It makes room for all
    /// answers before the first step. After an `Err` a beginning of the steps is applied, of
    /// [`World::applied`] steps: none where there was no room for the answers, else those before
    /// the step whose growth was refused.
    pub fn run_all(&mut self, steps: &[Step]) -> Result<Vec<Outcome>, NoMemory>
        ensures outcomes { IfOk result (λ outcomes.
            outcomes.items ≡ outcomes_of steps.now self.old.domains) }
        ensures all { OnOk result (self.new.applied ≡ length steps.now) }
        ensures beginning { self.new.applied ≤ length steps.now }
        ensures world { self.new.domains
            ≡ after_steps (take self.new.applied steps.now) self.old.domains }
        ensures err_only { OnErr result (IsGrowingAt steps.now self.new.applied self.old.domains) }

        // After every step of the list each word is exact.
        ensures exact { (k : ℕ) → IsExact (after_steps (take k steps.now) self.old.domains) }
    {
        self.applied = 0;
        let mut outcomes = Vec::with_capacity(*self.domains.allocator(), steps.len())?;
        for step in steps {
            let outcome = self.apply(*step)?;
            outcomes.push_reserved(outcome);
            self.applied += 1;
        }
        Ok(outcomes)
    }

    /// The changes of a domain's book, oldest first; none where there is no such domain.
    pub fn changes(&self, domain: usize) -> Option<&[Change]>
        ensures { MatchOption result (length self.now.domains ≤ domain) (λ changes.
            IsSomeAnd (slice_get self.now.domains domain) (λ d. changes.now ≡ d.changes)) }
    {
        match self.domains.get(domain) {
            Some(d) => Some(d.changes()),
            None => None,
        }
    }

    /// How many steps of the last [`World::run_all`] were applied; 0 before any.
    pub fn applied(&self) -> usize
        ensures { result ≡ self.now.applied }
    {
        self.applied
    }
}
