ghost use Rattle.std.specs.Prelude.{◌≡◌, ◌<◌, ◌++◌, ◌∷◌, [], vec_len, vec_capacity};
ghost use Rattle.bw_world.specs.declared.book.Change.TheVariants.{Entered, Released};
ghost use Rattle.bw_world.specs.DomainStep.{without, without_task};

use crate::book::Change;
use crate::step::{Outcome, Word};
use crate::ticket::{
    Task, Ticket, any_number, any_task, any_ticket, remove_task, remove_ticket, set_task_bw,
    set_ticket_bw, task_of, ticket_of,
};
use no_memory::NoMemory;
use std::alloc::Global;
use std::marker::Model;

/// One root domain of a world.
#[derive(Drop)]
pub(crate) struct Domain {
    cap: u64,
    used: u64,
    in_hand: Vec<Ticket>,
    admitted: Vec<Task>,
    changes: Vec<Change>,
}

impl Model for Domain {
    ghost use Rattle.bw_world.specs.WorldView.{DomainView};

    ghost Value = { DomainView };

    ghost view = { λ d. record {
      cap = d.cap;
      used = d.used;
      in_hand = d.in_hand.items;
      admitted = d.admitted.items;
      changes = d.changes.items;
    } };
}

impl Domain {
    ghost use Rattle.std.specs.Prelude.{◌≡◌, ◌≤◌, ◌<◌, ◌+◌, ◌^◌, ◌==◌, true, false, Some, IsTrue, IfNone, IfSome, IfOk, OnOk, OnErr};
    ghost use Rattle.std.specs.List.{list_any};
    ghost use Rattle.bw_world.specs.declared.step.Outcome.TheVariants.{Done};
    ghost use Rattle.bw_world.specs.ExactWord.{IsExactDomain};
    ghost use Rattle.bw_world.specs.DomainStep.{unused_domain, in_hand_of, admitted_of, is_live_in, word_in, is_expected, refusal_of, limited, taken, regraded, regraded_in_hand, regraded_admitted, given, entered, entered_with, released};
    ghost use Rattle.bw_world.specs.WorldStep.{fits_move};

    /// A domain before its first step. Takes no memory.
    pub fn open(alloc: Global, cap: u64) -> Domain
        ensures { result ≡ unused_domain cap }
    {
        Domain {
            cap,
            used: 0,
            in_hand: Vec::new(alloc),
            admitted: Vec::new(alloc),
            changes: Vec::new(alloc),
        }
    }

    /// The bandwidth word: the cap, and what is used of it.
    pub fn word(&self) -> Word
        ensures { result ≡ word_in self.now }
    {
        Word {
            cap: self.cap,
            used: self.used,
        }
    }

    // Whether the word is the expected one.
    fn is_expected(&self, expected: Word) -> bool
        ensures { result ≡ is_expected expected self.now }
    {
        self.used == expected.used && self.cap == expected.cap
    }

    /// The changes of the book, oldest first.
    pub fn changes(&self) -> &[Change]
        ensures { result.now ≡ self.now.changes }
    {
        self.changes.as_slice()
    }

    /// Whether the ticket is in a hand or in an admitted task here.
    pub fn is_live(&self, id: u64) -> bool
        ensures { result ≡ is_live_in id self.now }
    {
        any_ticket(self.in_hand.as_slice(), id) || any_task(self.admitted.as_slice(), id)
    }

    // The ticket in hand with this id.
    fn in_hand_of(&self, id: u64) -> Option<Ticket>
        ensures { result ≡ in_hand_of id self.now }
    {
        ticket_of(self.in_hand.as_slice(), id)
    }

    // The admitted task that holds the ticket.
    fn admitted_of(&self, id: u64) -> Option<Task>
        ensures { result ≡ admitted_of id self.now }
    {
        task_of(self.admitted.as_slice(), id)
    }

    // Why the used part is not exchanged for `rest + bw`, where `rest` is it without what goes.
    fn refusal(&self, expected: Word, rest: u64, bw: u64) -> Option<Outcome>
        requires { rest ≤ self.now.cap }
        ensures refusal { result ≡ refusal_of expected (rest + bw) self.now }
        ensures fits { IfNone result (rest + bw < 2 ^ 64) }
    {
        if !self.is_expected(expected) {
            return Some(Outcome::Lost(self.word()));
        }
        if bw > self.cap - rest {
            return Some(Outcome::Over(self.word()));
        }
        None
    }

    /// Takes a new ticket.
    pub fn take(&mut self, id: u64, bw: u64, expected: Word) -> Result<Outcome, NoMemory>
        requires { self.old.used ≤ self.old.cap }
        ensures outcome { IfOk result (λ outcome.
            outcome ≡ (taken id bw expected self.old).outcome) }
        ensures domain { OnOk result (self.new ≡ (taken id bw expected self.old).domain) }
        ensures err { OnErr result (self.new ≡ self.old) }
        ensures err_only { OnErr result ((taken id bw expected self.old).outcome ≡ Done) }
    {
        if let Some(refusal) = self.refusal(expected, self.used, bw) {
            return Ok(refusal);
        }
        self.in_hand.try_reserve(1)?;
        self.in_hand.push_reserved(Ticket { id, bw });
        self.used += bw;
        Ok(Outcome::Done)
    }

    // Gives a ticket in hand another bandwidth in the place of `was`.
    fn regrade_in_hand(&mut self, id: u64, was: u64, bw: u64, expected: Word) -> Outcome
        requires held { was ≤ self.old.used }
        requires capped { self.old.used ≤ self.old.cap }
        ensures outcome { result ≡ (regraded_in_hand id was bw expected self.old).outcome }
        ensures domain { self.new ≡ (regraded_in_hand id was bw expected self.old).domain }
    {
        let rest = self.used - was;
        if let Some(refusal) = self.refusal(expected, rest, bw) {
            return refusal;
        }
        set_ticket_bw(&mut self.in_hand, id, bw);
        self.used = rest + bw;
        Outcome::Done
    }

    // Gives an admitted ticket another bandwidth in the place of `task.bw`.
    fn regrade_admitted(
        &mut self,
        id: u64,
        task: Task,
        bw: u64,
        expected: Word,
    ) -> Result<Outcome, NoMemory>
        requires held { task.bw ≤ self.old.used }
        requires capped { self.old.used ≤ self.old.cap }
        ensures outcome { IfOk result (λ outcome.
            outcome ≡ (regraded_admitted id task bw expected self.old).outcome) }
        ensures domain { OnOk result (
            self.new ≡ (regraded_admitted id task bw expected self.old).domain) }
        ensures err { OnErr result (self.new ≡ self.old) }
        ensures err_only { OnErr result (
            (regraded_admitted id task bw expected self.old).outcome ≡ Done) }
    {
        let rest = self.used - task.bw;
        if let Some(refusal) = self.refusal(expected, rest, bw) {
            return Ok(refusal);
        }
        self.changes.try_reserve(1)?;
        let regraded = Change::Regraded {
            number: task.number,
            bw,
        };
        self.changes.push_reserved(regraded);
        set_task_bw(&mut self.admitted, id, bw);
        self.used = rest + bw;
        Ok(Outcome::Done)
    }

    /// Gives a live ticket another bandwidth.
    #[tactic(auto, using(crate::proofs::Counted::found_any))]
    pub fn regrade(&mut self, id: u64, bw: u64, expected: Word) -> Result<Outcome, NoMemory>
        requires { IsExactDomain self.old }
        ensures outcome { IfOk result (λ outcome.
            outcome ≡ (regraded id bw expected self.old).outcome) }
        ensures domain { OnOk result (self.new ≡ (regraded id bw expected self.old).domain) }
        ensures err { OnErr result (self.new ≡ self.old) }
        ensures err_only { OnErr result ((regraded id bw expected self.old).outcome ≡ Done) }
        ensures err_admitted { OnErr result (
            IsTrue (list_any (λ t. t.ticket == id) self.old.admitted)) }
    {
        if let Some(ticket) = self.in_hand_of(id) {
            return Ok(self.regrade_in_hand(id, ticket.bw, bw, expected));
        }
        match self.admitted_of(id) {
            Some(task) => self.regrade_admitted(id, task, bw, expected),
            None => Ok(Outcome::Not),
        }
    }

    /// Gives a ticket back.
    pub fn give(&mut self, id: u64) -> Outcome
        requires { IsExactDomain self.old }
        ensures outcome { result ≡ (given id self.old).outcome }
        ensures domain { self.new ≡ (given id self.old).domain }
    {
        match self.in_hand_of(id) {
            None => Outcome::Not,
            Some(ticket) => {
                self.used -= ticket.bw;
                remove_ticket(&mut self.in_hand, id);
                Outcome::Done
            }
        }
    }

    /// Puts a ticket into a task.
    pub fn enter(&mut self, id: u64, number: u32) -> Result<Outcome, NoMemory>
        ensures outcome { IfOk result (λ outcome. outcome ≡ (entered id number self.old).outcome) }
        ensures domain { OnOk result (self.new ≡ (entered id number self.old).domain) }
        ensures err { OnErr result (self.new ≡ self.old) }
        ensures err_only { OnErr result ((entered id number self.old).outcome ≡ Done) }
    {
        let Some(ticket) = self.in_hand_of(id) else {
            return Ok(Outcome::Not);
        };
        self.enter_with(id, number, ticket.bw)
    }

    // Puts a ticket in hand, of the bandwidth `bw`, into a task.
    fn enter_with(&mut self, id: u64, number: u32, bw: u64) -> Result<Outcome, NoMemory>
        ensures outcome { IfOk result (λ outcome.
            outcome ≡ (entered_with id number bw self.old).outcome) }
        ensures domain { OnOk result (self.new ≡ (entered_with id number bw self.old).domain) }
        ensures err { OnErr result (self.new ≡ self.old) }
        ensures err_only { OnErr result ((entered_with id number bw self.old).outcome ≡ Done) }
    {
        if any_number(self.admitted.as_slice(), number) {
            return Ok(Outcome::Not);
        }
        self.admitted.try_reserve(1)?;
        self.changes.try_reserve(1)?;
        let task = Task {
            number,
            ticket: id,
            bw,
        };
        admit(
            &mut self.in_hand,
            &mut self.admitted,
            &mut self.changes,
            task,
        );
        Ok(Outcome::Done)
    }

    /// Takes a ticket out of its task.
    pub fn release(&mut self, id: u64) -> Result<Outcome, NoMemory>
        ensures outcome { IfOk result (λ outcome. outcome ≡ (released id self.old).outcome) }
        ensures domain { OnOk result (self.new ≡ (released id self.old).domain) }
        ensures err { OnErr result (self.new ≡ self.old) }
        ensures err_only { OnErr result ((released id self.old).outcome ≡ Done) }
    {
        let Some(task) = self.admitted_of(id) else {
            return Ok(Outcome::Not);
        };
        self.in_hand.try_reserve(1)?;
        self.changes.try_reserve(1)?;
        set_free(
            &mut self.in_hand,
            &mut self.admitted,
            &mut self.changes,
            id,
            task,
        );
        Ok(Outcome::Done)
    }

    /// Gives the word another cap, if no more is used of it.
    pub fn limit(&mut self, cap: u64, expected: Word) -> Outcome
        ensures outcome { result ≡ (limited cap expected self.old).outcome }
        ensures domain { self.new ≡ (limited cap expected self.old).domain }
    {
        if !self.is_expected(expected) {
            return Outcome::Lost(self.word());
        }
        if self.used > cap {
            return Outcome::Over(self.word());
        }
        self.cap = cap;
        Outcome::Done
    }

    /// The task of the number with the ticket `old`, if it may go to the other domain, where it
    /// takes the ticket `new`.
    pub fn task_to_move(&self, to: &Domain, old: u64, new: u64, number: u32) -> Option<Task>
        ensures misfit { IfNone result (fits_move old new number self.now to.now ≡ false) }
        ensures fits { IfSome result (λ task. fits_move old new number self.now to.now ≡ true) }
        ensures task { IfSome result (λ task. admitted_of old self.now ≡ Some task) }
        ensures number { IfSome result (λ task. task.number ≡ number) }
    {
        let task = self.admitted_of(old)?;
        let ticket = to.in_hand_of(new)?;
        let fits = task.number == number
            && task.bw == ticket.bw
            && !any_number(to.admitted.as_slice(), number);
        if fits { Some(task) } else { None }
    }

    /// Moves a task to another domain: releases its ticket `old` here, and puts the ticket `new`
    /// into a task of its number there. Room for both is made first.
    pub fn hand_over(
        &mut self,
        to: &mut Domain,
        old: u64,
        new: u64,
        task: Task,
    ) -> Result<(), NoMemory>
        requires task { admitted_of old self.old ≡ Some task }
        requires fits { fits_move old new task.number self.old to.old ≡ true }
        ensures from { OnOk result (self.new ≡ (released old self.old).domain) }
        ensures to { OnOk result (to.new ≡ (entered new task.number to.old).domain) }
        ensures err_from { OnErr result (self.new ≡ self.old) }
        ensures err_to { OnErr result (to.new ≡ to.old) }
    {
        self.in_hand.try_reserve(1)?;
        self.changes.try_reserve(1)?;
        to.admitted.try_reserve(1)?;
        to.changes.try_reserve(1)?;
        set_free(
            &mut self.in_hand,
            &mut self.admitted,
            &mut self.changes,
            old,
            task,
        );
        let moved = Task {
            number: task.number,
            ticket: new,
            bw: task.bw,
        };
        admit(&mut to.in_hand, &mut to.admitted, &mut to.changes, moved);
        Ok(())
    }
}

// Takes a ticket out of its task. There is room for it in hand, and in the book.
fn set_free(
    in_hand: &mut Vec<Ticket>,
    admitted: &mut Vec<Task>,
    changes: &mut Vec<Change>,
    id: u64,
    task: Task,
)
    requires in_hand { vec_len in_hand.old < vec_capacity in_hand.old }
    requires changes { vec_len changes.old < vec_capacity changes.old }
    ensures in_hand { in_hand.new.items ≡ in_hand.old.items ++ record { id = id; bw = task.bw }
        ∷ [] }
    ensures admitted { admitted.new.items ≡ without_task id admitted.old.items }
    ensures changes { changes.new.items ≡ changes.old.items ++ Released task.number ∷ [] }
{
    in_hand.push_reserved(Ticket { id, bw: task.bw });
    changes.push_reserved(Change::Released {
        number: task.number,
    });
    remove_task(admitted, id);
}

// Puts a ticket in hand into a task. There is room for it among the admitted ones, and in the book.
fn admit(in_hand: &mut Vec<Ticket>, admitted: &mut Vec<Task>, changes: &mut Vec<Change>, task: Task)
    requires admitted { vec_len admitted.old < vec_capacity admitted.old }
    requires changes { vec_len changes.old < vec_capacity changes.old }
    ensures in_hand { in_hand.new.items ≡ without task.ticket in_hand.old.items }
    ensures admitted { admitted.new.items ≡ admitted.old.items ++ task ∷ [] }
    ensures changes { changes.new.items ≡ changes.old.items
        ++ Entered task.number task.ticket task.bw ∷ [] }
{
    admitted.push_reserved(task);
    changes.push_reserved(Change::Entered {
        number: task.number,
        ticket: task.ticket,
        bw: task.bw,
    });
    remove_ticket(in_hand, task.ticket);
}
