//! Who starts on a CPU belongs to it and gets an open charge at once, without a log.

ghost use Rattle.std.specs.Prelude.{ℕ, ◌≡◌, ◌≢◌, ◌<◌, ◌≤◌, ◌^◌, ◌+◌, ◌/◌, ◌++◌, AllPairs, IfSome, IsSomeAnd, None, Some, map, max, length, slice_index_or, slice_set, vec_capacity, vec_len};
ghost use Rattle.attr_check.specs.Ratio.{cap};
ghost use Rattle.domain_run.specs.declared.task.Task.{Task};
ghost use Rattle.domain_run.specs.Domain.{IsLimit};
ghost use Rattle.domain_run.specs.Sound.{occupant as occupant_in};
ghost use Rattle.domain_run.specs.Tick.{sum_of};
ghost use Rattle.domain_run.specs.private.Choosing as spec;
ghost use Rattle.domain_run.specs.private.StaleCharges as stale_spec;
ghost use Rattle.domain_run.specs.private.Index.{IsListedAt};
ghost use Rattle.domain_run.specs.private.TaskTable.{basis_in, homed_here};
ghost use Rattle.due_times.specs.OpenCharges.{IsAhead, IsOn};
ghost use Rattle.domain_run.specs.private.Owed as waiting;
ghost use Rattle.grub_rules.specs.Accounts.{inactive_at};
ghost use Rattle.limits.specs.Limits.{deadline_end};

use crate::index::Index;
use crate::switch::{Switch, switch_of};
use crate::task::Task;
use crate::task_table::applying::charge;
use crate::task_table::choosing::{home_on, occupant_of, state_of};
use crate::task_table::rating::{charge_for, charge_on, rated_at_one, rated_by, rated_on};
use due_times::{Basis, Claim, OpenCharge, OpenCharges, Rating, StaleCharges};
use edf_pick::{Moved, Schedule};
use grub_rules::Accounts;
use slot_list::SlotList;

/// When a tick begins, and in a domain of which limit.
#[derive(Clone, Copy)]
pub(crate) struct Moment {
    /// In microseconds.
    pub(crate) time: u64,
    /// In 1/2^20 of a CPU.
    pub(crate) limit: u64,
}

/// The open charge of a CPU ends, and its task, the task at a place of the list, is charged.
#[inline(always)]
pub(super) fn vacate_place(
    tasks: &mut SlotList<Task>,
    charges: &mut OpenCharges,
    cpu: usize,
    place: usize,
    open_charge: OpenCharge,
)
    requires there { cpu < length charges.old.charges }
    requires is_charging { slice_index_or charges.old.charges cpu None ≡ Some open_charge }
    requires at { IsListedAt tasks.old open_charge.number place }
    requires ahead { IsAhead charges.old.upto open_charge }
    requires numbered { AllPairs (λ a b. a.number ≢ b.number) tasks.old }
    requires waits { waiting.AreOpen charges.old.charges tasks.old }
    ensures charges { charges.new ≡ record charges.old
        { charges = slice_set charges.old.charges cpu None } }
    ensures tasks { waiting.owed_all charges.new tasks.new
        ≡ waiting.owed_all charges.old tasks.old }
    ensures waits { waiting.AreOpen charges.new.charges tasks.new }
{
    charge_on(tasks.at_mut(place), cpu, open_charge, charges.upto());
    charges.end_charge(cpu);
}

/// The open charge of a CPU ends, and its task is charged.
#[inline(never)]
pub(super) fn vacate_on(
    tasks: &mut SlotList<Task>,
    charges: &mut OpenCharges,
    index: &Index,
    cpu: usize,
)
    requires there { cpu < length charges.old.charges }
    requires numbered { AllPairs (λ a b. a.number ≢ b.number) tasks.old }
    requires waits { waiting.AreOpen charges.old.charges tasks.old }
    ensures charges { charges.new ≡ record charges.old
        { charges = slice_set charges.old.charges cpu None } }
    ensures tasks { waiting.owed_all charges.new tasks.new
        ≡ waiting.owed_all charges.old tasks.old }
    ensures waits { waiting.AreOpen charges.new.charges tasks.new }
{
    let Some(open_charge) = charges.get(cpu) else {
        return;
    };
    match index.place(tasks, open_charge.number) {
        None => charges.end_charge(cpu),
        Some(place) => vacate_place(tasks, charges, cpu, place, open_charge),
    }
}

// As `vacate_on`: mostly there is no open charge.
#[inline(always)]
fn leave_free_on(tasks: &mut SlotList<Task>, charges: &mut OpenCharges, index: &Index, cpu: usize)
    requires there { cpu < length charges.old.charges }
    requires numbered { AllPairs (λ a b. a.number ≢ b.number) tasks.old }
    requires waits { waiting.AreOpen charges.old.charges tasks.old }
    ensures charges { charges.new ≡ record charges.old
        { charges = slice_set charges.old.charges cpu None } }
    ensures tasks { waiting.owed_all charges.new tasks.new
        ≡ waiting.owed_all charges.old tasks.old }
    ensures waits { waiting.AreOpen charges.new.charges tasks.new }
{
    if !charges.is_free(cpu) {
        vacate_on(tasks, charges, index, cpu);
    }
}

/// What the rates of the tasks of a CPU depend on now.
#[inline(always)]
pub(super) fn basis_of(accounts: &Accounts, cpu: usize, limit: u64) -> Basis
    requires there { cpu < length accounts.now.all }
    ensures { result ≡ record {
      uinact = inactive_at cpu accounts.now;
      share = accounts.now.total / length accounts.now.all;
      limit = limit;
    } }
{
    Basis {
        uinact: accounts.uinact(cpu),
        share: accounts.share(),
        limit,
    }
}

/// The rate of a task that belongs to a CPU, and what it was worked out from.
#[inline(always)]
fn rating_of(task: &Task, accounts: &Accounts, cpu: usize, limit: u64) -> Rating
    requires there { cpu < length accounts.now.all }
    requires cpus { (0 < length accounts.now.all) × (length accounts.now.all ≤ 64) }
    requires limit { IsLimit limit }
    requires within { accounts.now.total ≤ cap (length accounts.now.all) limit }
    ensures some { 0 < result.rate }
    ensures slow { result.rate ≤ 2 ^ 27 }
    ensures claim { IfSome result.claim (IsOn (record {
      uinact = inactive_at cpu accounts.now;
      share = accounts.now.total / length accounts.now.all;
      limit = limit;
    })) }
    ensures rated { waiting.IsRatedBy result.claim result.rate task.now }
{
    if !task.params.reclaim {
        return rated_at_one(task);
    }
    rated_on(task, basis_of(accounts, cpu, limit))
}

/// The task at a place, which belongs to a CPU without an open charge, has an open charge there at
/// its rate.
#[inline(always)]
pub(super) fn start_charge_at(
    tasks: &SlotList<Task>,
    accounts: &Accounts,
    charges: &mut OpenCharges,
    stale: &mut StaleCharges,
    place: usize,
    cpu: usize,
    limit: u64,
)
    requires there { cpu < length accounts.now.all }
    requires wide { length charges.old.charges ≡ length accounts.now.all }
    requires cpus { (0 < length accounts.now.all) × (length accounts.now.all ≤ 64) }
    requires limit { IsLimit limit }
    requires counts { spec.AreCounted accounts.now charges.old tasks.now }
    requires within { sum_of (waiting.owed_all charges.old tasks.now)
        ≤ cap (length accounts.now.all) limit }
    requires free { slice_index_or charges.old.charges cpu None ≡ None }
    requires at { place < length tasks.now }
    requires home { (d : Task)
        → (slice_index_or (waiting.owed_all charges.old tasks.now) place d).cpu ≡ cpu }
    requires may { (d : Task)
        → waiting.MayStart (slice_index_or (waiting.owed_all charges.old tasks.now) place d) }
    ensures clock { charges.new.upto ≡ charges.old.upto }
    ensures wide { length charges.new.charges ≡ length charges.old.charges }
    ensures others { (d : ℕ) → d ≢ cpu
        → slice_index_or charges.new.charges d None ≡ slice_index_or charges.old.charges d None }
    ensures tasks { waiting.owed_all charges.new tasks.now
        ≡ waiting.owed_all charges.old tasks.now }
    ensures waits { waiting.AreOpen charges.new.charges tasks.now }
    ensures is_charging { (d : Task) → stale_spec.IsSettled
        (Some (slice_index_or (waiting.owed_all charges.old tasks.now) place d).number)
        (basis_in (length accounts.now.all) limit (waiting.owed_all charges.old tasks.now) cpu)
        (slice_index_or charges.new.charges cpu None) }
    ensures here { (d : Task) → stale_spec.IsTrusted stale.new (length accounts.now.all)
        (Some (slice_index_or (waiting.owed_all charges.old tasks.now) place d).number)
        charges.new.charges (waiting.owed_all charges.old tasks.now) cpu }
    ensures keep_fresh { stale_spec.StaysFresh
        (length accounts.now.all) cpu stale.old charges.old.charges
        (waiting.owed_all charges.old tasks.now) stale.new charges.new.charges
        (waiting.owed_all charges.old tasks.now) }
    ensures sum { stale.new.sum ≡ stale.old.sum }
    ensures limit { stale.new.limit ≡ stale.old.limit }
{
    let task = tasks.at(place);
    let rating = rating_of(task, accounts, cpu, limit);
    let is_rated = rating.claim.is_some();
    let open_charge = charge_for(task, charges.upto(), rating);
    charges.start_charge(cpu, open_charge);
    stale.clear_for(cpu, is_rated, accounts.total(), limit);
}

/// The task with an open charge on a CPU, the task at a place of the list, is charged, and goes on
/// there by another claim, at its rate. The time at which the open charge ends is set once. The new
/// open charge.
#[inline(always)]
pub(super) fn go_on(
    tasks: &mut SlotList<Task>,
    charges: &mut OpenCharges,
    place: usize,
    cpu: usize,
    open_charge: OpenCharge,
    claim: Claim,
) -> OpenCharge
    requires there { cpu < length charges.old.charges }
    requires is_charging { slice_index_or charges.old.charges cpu None ≡ Some open_charge }
    requires ahead { IsAhead charges.old.upto open_charge }
    requires kept { IsSomeAnd open_charge.claim (λ k. k.bw ≡ claim.bw) }
    requires at { IsListedAt tasks.old open_charge.number place }
    requires home { (d : Task) → (slice_index_or tasks.old place d).cpu ≡ cpu }
    requires may { (d : Task)
        → waiting.MayStart (slice_index_or (waiting.owed_all charges.old tasks.old) place d) }
    requires numbered { AllPairs (λ a b. a.number ≢ b.number) tasks.old }
    requires waits { waiting.AreOpen charges.old.charges tasks.old }
    requires charged { claim.charged ≤ max claim.bw (2 ^ 20) }
    requires limit { IsLimit claim.limit }
    ensures charges { charges.new
        ≡ record charges.old { charges = slice_set charges.old.charges cpu (Some result) } }
    ensures number { result.number ≡ open_charge.number }
    ensures claim { result.claim ≡ Some claim }
    ensures tasks { waiting.owed_all charges.new tasks.new
        ≡ waiting.owed_all charges.old tasks.old }
    ensures waits { waiting.AreOpen charges.new.charges tasks.new }
{
    let upto = charges.upto();
    let task = tasks.at_mut(place);
    charge(task, open_charge, upto);
    let next = charge_for(task, upto, rated_by(task, claim));
    charges.start_charge(cpu, next);
    next
}

/// The task that runs on a CPU that another one had, if one does, belongs to it and has an open
/// charge there at its rate, and no other task has one.
#[inline(always)]
fn charge_next(
    tasks: &mut SlotList<Task>,
    accounts: &mut Accounts,
    charges: &mut OpenCharges,
    index: &Index,
    occupant: Option<u32>,
    cpu: usize,
    stale: &mut StaleCharges,
    limit: u64,
)
    requires there { cpu < length accounts.old.all }
    requires wide { length charges.old.charges ≡ length accounts.old.all }
    requires cpus { (0 < length accounts.old.all) × (length accounts.old.all ≤ 64) }
    requires limit { IsLimit limit }
    requires counts { spec.AreCounted accounts.old charges.old tasks.old }
    requires within { sum_of (waiting.owed_all charges.old tasks.old)
        ≤ cap (length accounts.old.all) limit }
    requires may { IfSome occupant
        (waiting.MayStartOf (waiting.owed_all charges.old tasks.old)) }
    ensures wide { length accounts.new.all ≡ length accounts.old.all }
    ensures counts { spec.AreCounted accounts.new charges.new tasks.new }
    ensures tasks { waiting.owed_all charges.new tasks.new
        ≡ map (homed_here occupant cpu) (waiting.owed_all charges.old tasks.old) }
    ensures clock { charges.new.upto ≡ charges.old.upto }
    ensures charges { length charges.new.charges ≡ length charges.old.charges }
    ensures here { stale_spec.IsTrusted stale.new
        (length accounts.old.all) occupant charges.new.charges
        (waiting.owed_all charges.new tasks.new) cpu }
    ensures keep_fresh { stale_spec.StaysFresh
        (length accounts.old.all) cpu stale.old charges.old.charges
        (waiting.owed_all charges.old tasks.old) stale.new charges.new.charges
        (waiting.owed_all charges.new tasks.new) }
{
    let place = home_on(tasks, accounts, charges, index, occupant, cpu, stale);
    leave_free_on(tasks, charges, index, cpu);
    if occupant.is_none() {
        stale.clear(cpu, false);
        return;
    }
    if let Some(place) = place {
        start_charge_at(tasks, accounts, charges, stale, place, cpu, limit);
    }
}

/// Each task to which the last choice gave a CPU belongs to it and has an open charge there at its
/// rate, and there is a switch for each of these CPUs.
#[inline(always)]
pub(super) fn charge_moved(
    tasks: &mut SlotList<Task>,
    accounts: &mut Accounts,
    charges: &mut OpenCharges,
    index: &Index,
    schedule: &Schedule,
    stale: &mut StaleCharges,
    moment: Moment,
    switches: &mut Vec<Switch>,
)
    requires early { moment.time < deadline_end }
    requires there { spec.AreWithin (length accounts.old.all) schedule.now.moves }
    requires wide { length charges.old.charges ≡ length accounts.old.all }
    requires cpus { (0 < length accounts.old.all) × (length accounts.old.all ≤ 64) }
    requires limit { IsLimit moment.limit }
    requires counts { spec.AreCounted accounts.old charges.old tasks.old }
    requires within { sum_of (waiting.owed_all charges.old tasks.old)
        ≤ cap (length accounts.old.all) moment.limit }
    requires may { (cpu : ℕ) → IfSome (occupant_in schedule.now.places cpu)
        (waiting.MayStartOf (waiting.owed_all charges.old tasks.old)) }
    requires settled { stale_spec.AreSettledBut schedule.now.moves stale.old
        (length accounts.old.all) schedule.now.places charges.old.charges
        (waiting.owed_all charges.old tasks.old) }
    requires spare { vec_len switches.old + length schedule.now.moves ≤ vec_capacity switches.old }
    ensures wide { length accounts.new.all ≡ length accounts.old.all }
    ensures counts { spec.AreCounted accounts.new charges.new tasks.new }
    ensures tasks { waiting.owed_all charges.new tasks.new
        ≡ map (spec.task_homed_by schedule.now.places schedule.now.moves)
        (waiting.owed_all charges.old tasks.old) }
    ensures clock { charges.new.upto ≡ charges.old.upto }
    ensures charges { length charges.new.charges ≡ length charges.old.charges }
    ensures settled { stale_spec.AreSettled stale.new (length accounts.old.all)
        schedule.now.places charges.new.charges (waiting.owed_all charges.new tasks.new) }
    ensures switches { switches.new.items ≡ switches.old.items
        ++ map (spec.switch_made moment.time (waiting.owed_all charges.old tasks.old)
        schedule.now.places) schedule.now.moves }
    ensures spare { vec_capacity switches.new ≡ vec_capacity switches.old }
{
    let places = schedule.occupants();
    let moves = schedule.moves();
    for i in 0..moves.len() {
        let moved = moves[i];
        let next = occupant_of(places, moved.cpu);
        let state = state_of(tasks, index, moved.before);
        switches.push_reserved(switch_of(moment.time, moved, next, state));
        charge_next(
            tasks,
            accounts,
            charges,
            index,
            next,
            moved.cpu,
            stale,
            moment.limit,
        );
    }
}
