//! Running sums of the bandwidth of a domain's tasks (sched-deadline.rst, "Bandwidth reclaiming").

ghost use Rattle.std.specs.Prelude.{◌≡◌, ◌<◌, ◌≤◌, ◌^◌, ◌+◌, ◌-◌, ◌/◌, ◌==◌, ◌↔◌, IsTrue, ℕ, if◌then◌else◌, [], ◌∷◌, length, slice_index, sum, replicate, vec_len, vec_capacity, IfOk};
ghost use Rattle.grub_rules.specs.Accounts.{AreAccounts, Holds, Exchanges, active_share, inactive_share, inactive_at};

use crate::rules::on_each;
use crate::share::Share;
use std::alloc::{AllocError, Global};
use std::marker::Model;

/// The running sums of a domain (sched-deadline.rst, "Bandwidth reclaiming"): for each CPU the
/// bandwidth of the tasks that belong to it, this_bw, and of those of them that are active,
/// running_bw, in 1/2^20 of a CPU.
///
/// Each call reports one change of the list of tasks. So, of every list that the sums count, in
/// whatever order, they count the list with that change afterwards. Sums with room for more or
/// fewer than the CPUs cannot be built.
#[derive(Drop)]
pub struct Accounts {
    all: Vec<u64>,
    active: Vec<u64>,
    total: u64,
    // The total divided by the number of CPUs, by one division for each change of the total.
    share: u64,
}

impl Model for Accounts {
    ghost use Rattle.std.specs.Prelude.{vec_capacity};
    ghost use Rattle.grub_rules.specs.Accounts.{AccountsView, IsBalanced};

    ghost Value = { AccountsView };

    ghost view = { λ a. record { all = a.all.items; active = a.active.items; total = a.total } };

    ghost invariant = { λ a. IsBalanced
        (record { all = a.all.items; active = a.active.items; total = a.total }) a.share
        (vec_capacity a.all) (vec_capacity a.active) };
}

// A sum of 0 for each CPU, with room for no more.
fn zeros(alloc: Global, cpus: usize) -> Result<Vec<u64>, AllocError>
    ensures sums { IfOk result (λ sums. sums.items ≡ replicate cpus 0) }
    ensures len { IfOk result (λ sums. vec_len sums ≡ cpus) }
    ensures room { IfOk result (λ sums. vec_capacity sums ≡ cpus) }
{
    let mut sums = Vec::with_capacity(alloc, cpus)?;
    for _ in 0..cpus {
        sums.push_reserved(0);
    }
    Ok(sums)
}

// Adds bandwidth to the sum of a CPU.
fn add(sums: &mut Vec<u64>, cpu: usize, bw: u64)
    requires home { cpu < vec_len sums.old }
    requires fits { slice_index sums.old.items cpu + bw < 2 ^ 64 }
    ensures each { (at : ℕ) → slice_index sums.new.items at
        ≡ slice_index sums.old.items at + (if cpu == at then bw else 0) }
    ensures whole { sum sums.new.items ≡ sum sums.old.items + bw }
    ensures len { vec_len sums.new ≡ vec_len sums.old }
    ensures room { vec_capacity sums.new ≡ vec_capacity sums.old }
{
    sums[cpu] += bw;
}

// Takes bandwidth from the sum of a CPU.
fn subtract(sums: &mut Vec<u64>, cpu: usize, bw: u64)
    requires home { cpu < vec_len sums.old }
    requires held { bw ≤ slice_index sums.old.items cpu }
    ensures each { (at : ℕ) → slice_index sums.new.items at + (if cpu == at then bw else 0)
        ≡ slice_index sums.old.items at }
    ensures whole { sum sums.new.items + bw ≡ sum sums.old.items }
    ensures len { vec_len sums.new ≡ vec_len sums.old }
    ensures room { vec_capacity sums.new ≡ vec_capacity sums.old }
{
    sums[cpu] -= bw;
}

impl Accounts {
    /// The sums of no tasks, for so many CPUs; a domain has 1 to 64. The only call that takes
    /// memory; `Err` where a growth was refused.
    pub fn open(alloc: Global, cpus: usize) -> Result<Accounts, AllocError>
        ensures cpus { IfOk result (λ accounts. length accounts.all ≡ cpus) }
        ensures sums { IfOk result (λ accounts. AreAccounts accounts []) }
    {
        Ok(Accounts {
            all: zeros(alloc, cpus)?,
            active: zeros(alloc, cpus)?,
            total: 0,
            share: 0,
        })
    }

    /// The number of CPUs.
    pub fn cpus(&self) -> usize
        ensures { result ≡ length self.now.all }
    {
        self.all.len()
    }

    /// Whether a share may go: it belongs to a CPU of the domain, which has so much bandwidth of
    /// its kind, active or not.
    pub fn holds(&self, share: &Share) -> bool
        ensures { IsTrue result ↔ Holds self.now share.now }
    {
        if share.cpu >= self.cpus() {
            return false;
        }
        if share.active {
            share.bw <= self.active[share.cpu]
        } else {
            share.bw <= self.uinact(share.cpu)
        }
    }

    /// A task goes on the list. The bandwidth of all tasks stays below 2^64, which 256 tasks of at
    /// most 2^20 each never reach.
    pub fn join(&mut self, share: &Share)
        requires home { share.now.cpu < length self.old.all }
        requires fits { self.old.total + share.now.bw < 2 ^ 64 }
        ensures { Exchanges self.old self.new [] (share.now ∷ []) }
    {
        add(&mut self.all, share.cpu, share.bw);
        if share.active {
            add(&mut self.active, share.cpu, share.bw);
        }
        self.total += share.bw;
        self.share = on_each(self.total, self.all.len() as u64);
    }

    /// A task goes off the list, active or not as it is.
    pub fn part(&mut self, share: &Share)
        requires { Holds self.old share.now }
        ensures { Exchanges self.old self.new (share.now ∷ []) [] }
    {
        subtract(&mut self.all, share.cpu, share.bw);
        if share.active {
            subtract(&mut self.active, share.cpu, share.bw);
        }
        self.total -= share.bw;
        self.share = on_each(self.total, self.all.len() as u64);
    }

    /// A listed task of this CPU and bandwidth, inactive until now, becomes active: it contends.
    pub fn wake(&mut self, cpu: usize, bw: u64)
        requires { Holds self.old (inactive_share cpu bw) }
        ensures { Exchanges self.old self.new (inactive_share cpu bw ∷ [])
            (active_share cpu bw ∷ []) }
    {
        add(&mut self.active, cpu, bw);
    }

    /// A listed task of this CPU and bandwidth, active until now, becomes inactive: it does not
    /// contend, and its zero-lag time has come.
    pub fn idle(&mut self, cpu: usize, bw: u64)
        requires { Holds self.old (active_share cpu bw) }
        ensures { Exchanges self.old self.new (active_share cpu bw ∷ [])
            (inactive_share cpu bw ∷ []) }
    {
        subtract(&mut self.active, cpu, bw);
    }

    /// A listed task, active or not, belongs to the CPU `to` from now on, and its bandwidth goes
    /// with it.
    pub fn shift(&mut self, share: &Share, to: usize)
        requires held { Holds self.old share.now }
        requires home { to < length self.old.all }
        ensures { Exchanges self.old self.new (share.now ∷ [])
            (record share.now { cpu = to } ∷ []) }
    {
        subtract(&mut self.all, share.cpu, share.bw);
        add(&mut self.all, to, share.bw);
        if share.active {
            subtract(&mut self.active, share.cpu, share.bw);
            add(&mut self.active, to, share.bw);
        }
    }

    /// The share of a listed task was `before` and is `after` now: its CPU, its bandwidth and
    /// whether it is active may all have changed, or nothing.
    pub fn track(&mut self, before: &Share, after: &Share)
        requires held { Holds self.old before.now }
        requires home { after.now.cpu < length self.old.all }
        requires fits { self.old.total - before.now.bw + after.now.bw < 2 ^ 64 }
        ensures { Exchanges self.old self.new (before.now ∷ []) (after.now ∷ []) }
    {
        if before == after {
            return;
        }
        if before.bw == after.bw && before.active == after.active {
            self.shift(before, after.cpu);
        } else if before.bw == after.bw && before.cpu == after.cpu {
            if after.active {
                self.wake(after.cpu, after.bw);
            } else {
                self.idle(after.cpu, after.bw);
            }
        } else {
            self.part(before);
            self.join(after);
        }
    }

    /// The bandwidth of the inactive tasks of a CPU, Uinact: this_bw less running_bw.
    pub fn uinact(&self, cpu: usize) -> u64
        requires { cpu < length self.now.all }
        ensures { result ≡ inactive_at cpu self.now }
    {
        self.all[cpu] - self.active[cpu]
    }

    /// The bandwidth of all listed tasks of the domain, divided by the number of CPUs.
    pub fn share(&self) -> u64
        ensures { result ≡ self.now.total / length self.now.all }
    {
        self.share
    }

    /// The bandwidth of all listed tasks of the domain.
    pub fn total(&self) -> u64
        ensures { result ≡ self.now.total }
    {
        self.total
    }
}
