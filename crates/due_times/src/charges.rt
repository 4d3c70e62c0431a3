//! Who runs since when. What a running task owes for its running is not charged tick by tick: an
//! open charge says since when it has not been charged and at which rate it runs, so that time goes
//! on for all of them at once.

ghost use Rattle.std.specs.Prelude.{ℕ, false, IsTrue, is_none, ◌≡◌, ◌↔◌, ◌<◌, ◌≤◌, ◌+◌, ◌^◌, All, IfOk, IfSome, IsSome, IsSomeAnd, None, Some, length, map, option_map, replicate, slice_index_or, slice_set, vec_capacity};
ghost use Rattle.due_times.specs.OpenCharges as spec;
ghost use Rattle.due_times.specs.Timers.{AreLater, least};

use crate::timers::{NEVER, Timers};
use no_memory::NoMemory;
use std::alloc::{AllocError, Global};
use std::marker::Model;

/// What the rates of the tasks of a CPU depend on beside their parameters.
#[derive(Clone, Copy)]
pub struct Basis {
    /// The bandwidth of the inactive tasks of the CPU, in 1/2^20 of a CPU.
    pub uinact: u64,
    /// The bandwidth of all listed tasks, divided by the number of CPUs.
    pub share: u64,
    /// In 1/2^20 of a CPU.
    pub limit: u64,
}

/// What the rate of a task that reclaims was worked out from. On another basis the task has the
/// same rate still, if it is charged for the same bandwidth there.
#[derive(Clone, Copy)]
pub struct Claim {
    /// The bandwidth of the task, in 1/2^20 of a CPU.
    pub bw: u64,
    /// The bandwidth that it is charged for: what is neither inactive on its CPU nor free in its
    /// domain, or its own, if that is more.
    pub charged: u64,
    /// In 1/2^20 of a CPU.
    pub limit: u64,
}

/// A task that runs on a CPU, and has not been charged since a time. Times are in microseconds of
/// the clock of the open charges.
#[derive(Clone, Copy)]
pub struct OpenCharge {
    /// The task's number.
    pub number: u32,
    /// Since when it has not been charged.
    pub since: u64,
    /// What a tick takes of its budget, in 1/2^20 us.
    pub rate: u64,
    /// What the rate was worked out from; nothing where it is the same on every basis.
    pub claim: Option<Claim>,
    /// When its work or its budget ends, if it goes on to run at this rate, or a time before that.
    pub end: u64,
}

/// At which rate a task is to run, and what that was worked out from; nothing where it is the same
/// on every basis.
#[derive(Clone, Copy)]
pub struct Rating {
    /// What a tick takes of its budget, in 1/2^20 us.
    pub rate: u64,
    /// What it was worked out from.
    pub claim: Option<Claim>,
}

/// For each CPU the open charge of who runs there, if one does, and the time up to which all of
/// them have run. Open charges with room for more or fewer than the CPUs cannot be built.
#[derive(Drop)]
pub struct OpenCharges {
    upto: u64,
    charges: Vec<Option<OpenCharge>>,
    // When each open charge ends, by CPU.
    ends: Timers,
}

impl Model for OpenCharges {
    ghost use Rattle.std.specs.Prelude.{vec_capacity};
    ghost use Rattle.due_times.specs.OpenCharges.{OpenChargesView, AreCharges};

    ghost Value = { OpenChargesView };

    ghost view = { λ s. record { upto = s.upto; charges = s.charges.items } };

    ghost invariant = { λ s. AreCharges s.upto s.charges.items s.ends (vec_capacity s.charges) };
}

impl Claim {
    /// That of a task of a bandwidth, on a basis.
    #[inline(always)]
    pub fn on(basis: &Basis, bw: u64) -> Claim
        ensures bw { result.bw ≡ bw }
        ensures on { spec.IsOn basis.now result }
    {
        Claim {
            bw,
            charged: bw.max(basis.share.saturating_sub(basis.uinact)),
            limit: basis.limit,
        }
    }

    /// Whether the rate is the same by both.
    #[inline(always)]
    pub fn is_same(&self, other: &Claim) -> bool
        ensures { IsTrue result
            ↔ ((self.now.charged ≡ other.now.charged) × (self.now.limit ≡ other.now.limit)) }
    {
        self.charged == other.charged && self.limit == other.limit
    }
}

/// An open charge, where it is that of a task.
fn if_of(charge: Option<OpenCharge>, number: u32) -> Option<OpenCharge>
    ensures { result ≡ spec.charge_by number charge }
{
    match charge {
        Some(charge) if charge.number == number => Some(charge),
        _ => None,
    }
}

// So many empty places for open charges, with room for no more.
fn empty(alloc: Global, cpus: usize) -> Result<Vec<Option<OpenCharge>>, AllocError>
    ensures charges { IfOk result (λ charges. charges.items ≡ replicate cpus None) }
    ensures room { IfOk result (λ charges. vec_capacity charges ≡ cpus) }
{
    let mut charges = Vec::with_capacity(alloc, cpus)?;
    for _ in 0..cpus {
        charges.push_reserved(None);
    }
    Ok(charges)
}

// So many times that never come.
fn add_never(ends: &mut Timers, count: usize)
    requires none { length ends.old ≡ 0 }
    requires few { count ≤ 64 }
    ensures { ends.new ≡ replicate count (spec.end_of None) }
{
    for _ in 0..count {
        ends.push(NEVER);
    }
}

impl OpenCharges {
    /// Nobody runs, on at most 64 CPUs, with room for their open charges. No other call takes
    /// memory.
    pub fn open(alloc: Global, cpus: usize) -> Result<OpenCharges, NoMemory>
        requires { cpus ≤ 64 }
        ensures { IfOk result (λ made. made ≡ record { upto = 0; charges = replicate cpus None }) }
    {
        let charges = empty(alloc, cpus)?;
        let mut ends = Timers::open(alloc)?;
        add_never(&mut ends, cpus);
        Ok(OpenCharges {
            upto: 0,
            charges,
            ends,
        })
    }

    /// The time up to which all have run.
    pub fn upto(&self) -> u64
        ensures upto { result ≡ self.now.upto }
        ensures early { result ≤ 2 ^ 62 }
    {
        self.upto
    }

    /// How many CPUs there are.
    pub fn len(&self) -> usize
        ensures len { result ≡ length self.now.charges }
        ensures few { result ≤ 64 }
    {
        self.charges.len()
    }

    /// The open charge of a CPU.
    pub fn get(&self, cpu: usize) -> Option<OpenCharge>
        requires { cpu < length self.now.charges }
        ensures charge { result ≡ slice_index_or self.now.charges cpu None }
        ensures ahead { IfSome result (spec.IsAhead self.now.upto) }
    {
        self.charges[cpu]
    }

    /// Whether no charge is open on a CPU.
    #[inline(always)]
    pub fn is_free(&self, cpu: usize) -> bool
        requires { cpu < length self.now.charges }
        ensures { result ≡ is_none (slice_index_or self.now.charges cpu None) }
    {
        self.charges[cpu].is_none()
    }

    /// Whether a CPU has an open charge that keeps what its rate was worked out from.
    #[inline(always)]
    pub fn is_rated(&self, cpu: usize) -> bool
        requires { cpu < length self.now.charges }
        ensures free { result ≡ false
            → IfSome (slice_index_or self.now.charges cpu None) (λ s. s.claim ≡ None) }
        ensures rated { IsTrue result
            → IsSomeAnd (slice_index_or self.now.charges cpu None) (λ s. IsSome s.claim) }
    {
        match self.charges[cpu] {
            None => false,
            Some(charge) => charge.claim.is_some(),
        }
    }

    /// The open charge of a task on a CPU, where it has an open charge there.
    pub fn charge_of(&self, cpu: usize, number: u32) -> Option<OpenCharge>
        ensures charge { result ≡ spec.charge_by number (slice_index_or self.now.charges cpu None) }
        ensures ahead { IfSome result (spec.IsAhead self.now.upto) }
        ensures within { IfSome result (λ s. cpu < length self.now.charges) }
    {
        if cpu >= self.charges.len() {
            return None;
        }
        if_of(self.get(cpu), number)
    }

    /// Whether the task of a number has an open charge on a CPU, at a rate that is the same on
    /// every basis.
    #[inline(always)]
    pub fn is_unclaimed(&self, cpu: usize, number: u32) -> bool
        requires { cpu < length self.now.charges }
        ensures { IsTrue result ↔ IsSomeAnd (slice_index_or self.now.charges cpu None)
            (λ s. (s.number ≡ number) × (s.claim ≡ None)) }
    {
        let Some(charge) = &self.charges[cpu] else {
            return false;
        };
        charge.number == number && charge.claim.is_none()
    }

    /// The open charge of a task on a CPU with what its rate was worked out from, where it has an
    /// open charge there and keeps that.
    #[inline(always)]
    pub fn claimed(&self, cpu: usize, number: u32) -> Option<(OpenCharge, Claim)>
        requires { cpu < length self.now.charges }
        ensures is_charging { IfSome result
            (λ p. slice_index_or self.now.charges cpu None ≡ Some p.0) }
        ensures number { IfSome result (λ p. p.0.number ≡ number) }
        ensures claim { IfSome result (λ p. p.0.claim ≡ Some p.1) }
        ensures ahead { IfSome result (λ p. spec.IsAhead self.now.upto p.0) }
    {
        let Some(charge) = self.get(cpu) else {
            return None;
        };
        match charge.claim {
            Some(claim) if charge.number == number => Some((charge, claim)),
            _ => None,
        }
    }

    /// A charge is opened on a CPU.
    #[inline(always)]
    pub fn start_charge(&mut self, cpu: usize, charge: OpenCharge)
        requires there { cpu < length self.old.charges }
        requires ahead { spec.IsAhead self.old.upto charge }
        ensures { self.new ≡ record self.old
            { charges = slice_set self.old.charges cpu (Some charge) } }
    {
        self.charges[cpu] = Some(charge);
        self.ends.set(cpu, charge.end);
    }

    /// The open charge of a CPU, if a charge is open there, ends at another time.
    #[inline(always)]
    pub fn end_at(&mut self, cpu: usize, end: u64)
        requires there { cpu < length self.old.charges }
        requires ahead { IfSome (slice_index_or self.old.charges cpu None)
            (λ s. spec.IsAhead self.old.upto (spec.ending_at end s)) }
        ensures { self.new ≡ record self.old {
          charges = slice_set self.old.charges cpu
              (option_map (λ s. spec.ending_at end s) (slice_index_or self.old.charges cpu None));
        } }
    {
        if let Some(charge) = &mut self.charges[cpu] {
            charge.end = end;
            self.ends.set(cpu, end);
        }
    }

    /// A CPU has no open charge any more.
    #[inline(always)]
    pub fn end_charge(&mut self, cpu: usize)
        requires { cpu < length self.old.charges }
        ensures { self.new ≡ record self.old { charges = slice_set self.old.charges cpu None } }
    {
        self.charges[cpu] = None;
        self.ends.set(cpu, NEVER);
    }

    /// A task has no open charge on a CPU any more.
    #[inline(always)]
    pub fn leave(&mut self, cpu: usize, number: u32)
        ensures { self.new
            ≡ record self.old { charges = spec.without_charge cpu number self.old.charges } }
    {
        if self.charge_of(cpu, number).is_some() {
            self.end_charge(cpu);
        }
    }

    /// The first time at which an open charge ends.
    pub fn first_end(&self) -> u64
        ensures end { result ≡ least (map spec.end_of self.now.charges) }
        ensures charges { All (λ o. IfSome o (spec.IsAhead self.now.upto)) self.now.charges }
        ensures ahead { self.now.upto < result }
    {
        self.ends.least()
    }

    /// The first CPU, from this one on, whose open charge ends up to a time; where there is none,
    /// how many CPUs there are.
    #[inline(always)]
    pub fn next_ended(&self, from: usize, time: u64) -> usize
        requires { from ≤ length self.now.charges }
        ensures from { from ≤ result }
        ensures most { result ≤ length self.now.charges }
        ensures others { AreLater (map spec.end_of self.now.charges) time from result }
        ensures ended { result < length self.now.charges
            → spec.end_of (slice_index_or self.now.charges result None) ≤ time }
        ensures charges { All (λ o. IfSome o (spec.IsAhead self.now.upto)) self.now.charges }
    {
        self.ends.next_due(from, time)
    }

    /// So many ticks more in which all run, where no open charge ends in them.
    pub fn pass(&mut self, ticks: u64)
        requires early { self.old.upto + ticks ≤ 2 ^ 62 }
        requires ahead { AreLater (map spec.end_of self.old.charges) (self.old.upto + ticks) 0
            (length self.old.charges) }
        ensures passed { self.new ≡ record self.old { upto = self.old.upto + ticks } }
        ensures ahead { All (λ o. IfSome o (spec.IsAhead self.old.upto)) self.old.charges }
    {
        self.upto += ticks;
    }

    /// The clock begins anew, without an open charge.
    pub fn restart(&mut self)
        requires { (cpu : ℕ) → slice_index_or self.old.charges cpu None ≡ None }
        ensures { self.new ≡ record self.old { upto = 0 } }
    {
        self.upto = 0;
    }
}
