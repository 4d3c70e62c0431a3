//! Who starts on a CPU belongs to it from then on. The schedule has it so already.

ghost use Rattle.std.specs.Prelude.{◌≡◌, ◌≢◌, ◌<◌, ◌∷◌, [], All, AllPairs, IfSome, None, Some, map, length, slice_index_or};
ghost use Rattle.std.specs.Int.{bit_at};
ghost use Rattle.grub_rules.specs.Accounts.{Exchanges, Holds};
ghost use Rattle.domain_run.specs.Parts.{with_cpu};
ghost use Rattle.domain_run.specs.Switches as switches_spec;
ghost use Rattle.domain_run.specs.Tick as tick_spec;
ghost use Rattle.domain_run.specs.private.Choosing as spec;
ghost use Rattle.domain_run.specs.private.StaleCharges.{IsMarked};
ghost use Rattle.domain_run.specs.private.TaskTable.{homed_here};
ghost use Rattle.due_times.specs.OpenCharges as charges_spec;
ghost use Rattle.domain_run.specs.private.Owed as waiting;

use crate::index::Index;
use crate::parts;
use crate::status::share_of;
use crate::switch::PrevState;
use crate::task::Task;
use crate::task_table::applying::{leave_other, settle};
use due_times::{OpenCharges, StaleCharges};
use edf_pick::Schedule;
use grub_rules::Accounts;
use slot_list::SlotList;

/// The task that runs on a CPU, if one does.
#[inline(always)]
pub(super) fn occupant_of(places: &[Option<u32>], cpu: usize) -> Option<u32>
    ensures { result ≡ slice_index_or places.now cpu None }
{
    if cpu < places.len() {
        return places[cpu];
    }
    None
}

/// Part 5: the state in which an occupant leaves its CPU.
#[inline(always)]
pub(super) fn state_of(tasks: &SlotList<Task>, index: &Index, occupant: Option<u32>) -> PrevState
    requires numbered { AllPairs (λ a b. a.number ≢ b.number) tasks.now }
    ensures { result ≡ switches_spec.prev_state_of tasks.now occupant }
{
    match occupant {
        None => PrevState::Running,
        Some(number) => match index.place(tasks, number) {
            None => PrevState::Dead,
            Some(place) => parts::left_in(tasks.at(place).condition),
        },
    }
}

// A task that starts on a CPU is charged what it owes, belongs to the CPU, and has no open charge.
#[inline(always)]
fn start(task: &mut Task, accounts: &mut Accounts, charges: &mut OpenCharges, cpu: usize)
    requires waits { waiting.IsOpenIf charges.old.charges task.old }
    requires held { Holds accounts.old
        (tick_spec.share_of (waiting.owed charges.old.upto charges.old.charges task.old)) }
    requires there { cpu < length accounts.old.all }
    ensures task { task.new
        ≡ with_cpu (Some cpu) (waiting.owed charges.old.upto charges.old.charges task.old) }
    ensures sums { Exchanges accounts.old accounts.new
        (tick_spec.share_of (waiting.owed charges.old.upto charges.old.charges task.old) ∷ [])
        (tick_spec.share_of task.new ∷ []) }
    ensures charges { charges.new ≡ record charges.old {
      charges = charges_spec.without_charge cpu task.old.number
          (charges_spec.without_charge task.old.cpu task.old.number charges.old.charges);
    } }
{
    let (number, before) = (task.number, task.cpu);
    settle(task, charges);
    accounts.shift(&share_of(task), cpu);
    task.cpu = cpu;
    leave_other(charges, before, cpu, number);
}

// The task that runs on a CPU, if one does and is listed, belongs to it. Its place of the list.
#[inline(always)]
pub(super) fn home_on(
    tasks: &mut SlotList<Task>,
    accounts: &mut Accounts,
    charges: &mut OpenCharges,
    index: &Index,
    occupant: Option<u32>,
    cpu: usize,
    stale: &mut StaleCharges,
) -> Option<usize>
    requires there { cpu < length accounts.old.all }
    requires counts { spec.AreCounted accounts.old charges.old tasks.old }
    ensures place { IfSome result
        (λ p. spec.IsHome occupant cpu p (waiting.owed_all charges.new tasks.new)) }
    ensures wide { length accounts.new.all ≡ length accounts.old.all }
    ensures counts { spec.AreCounted accounts.new charges.new tasks.new }
    ensures tasks { waiting.owed_all charges.new tasks.new
        ≡ map (homed_here occupant cpu) (waiting.owed_all charges.old tasks.old) }
    ensures clock { charges.new.upto ≡ charges.old.upto }
    ensures charges { length charges.new.charges ≡ length charges.old.charges }
    ensures marked { IsMarked stale.old.rated stale.old.cpus stale.new.cpus charges.old.charges
        charges.new.charges (waiting.owed_all charges.old tasks.old)
        (waiting.owed_all charges.new tasks.new) }
    ensures here { cpu < 64 → bit_at stale.new.cpus cpu ≡ 1 }
    ensures rated { stale.new.rated ≡ stale.old.rated }
    ensures sum { stale.new.sum ≡ stale.old.sum }
    ensures limit { stale.new.limit ≡ stale.old.limit }
{
    stale.mark(cpu);
    let Some(number) = occupant else {
        return None;
    };
    let Some(place) = index.place(tasks, number) else {
        return None;
    };
    let left = tasks.at(place).cpu;
    if left == cpu {
        return Some(place);
    }
    stale.mark_left(left, charges.charge_of(left, number).is_some());
    start(tasks.at_mut(place), accounts, charges, cpu);
    Some(place)
}

/// Each task to which the last choice gave a CPU belongs to it.
#[inline(always)]
pub(super) fn home_all(
    tasks: &mut SlotList<Task>,
    accounts: &mut Accounts,
    charges: &mut OpenCharges,
    index: &Index,
    schedule: &Schedule,
    stale: &mut StaleCharges,
)
    requires there { spec.AreWithin (length accounts.old.all) schedule.now.moves }
    requires counts { spec.AreCounted accounts.old charges.old tasks.old }
    ensures wide { length accounts.new.all ≡ length accounts.old.all }
    ensures counts { spec.AreCounted accounts.new charges.new tasks.new }
    ensures tasks { waiting.owed_all charges.new tasks.new
        ≡ map (spec.task_homed_by schedule.now.places schedule.now.moves)
        (waiting.owed_all charges.old tasks.old) }
    ensures clock { charges.new.upto ≡ charges.old.upto }
    ensures charges { length charges.new.charges ≡ length charges.old.charges }
    ensures marked { IsMarked stale.old.rated stale.old.cpus stale.new.cpus charges.old.charges
        charges.new.charges (waiting.owed_all charges.old tasks.old)
        (waiting.owed_all charges.new tasks.new) }
    ensures moved { All (λ m. m.cpu < 64 → bit_at stale.new.cpus m.cpu ≡ 1) schedule.now.moves }
    ensures rated { stale.new.rated ≡ stale.old.rated }
    ensures sum { stale.new.sum ≡ stale.old.sum }
    ensures limit { stale.new.limit ≡ stale.old.limit }
{
    let places = schedule.occupants();
    let moves = schedule.moves();
    for i in 0..moves.len() {
        let cpu = moves[i].cpu;
        let occupant = occupant_of(places, cpu);
        home_on(tasks, accounts, charges, index, occupant, cpu, stale);
    }
}
