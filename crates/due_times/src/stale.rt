//! Which CPUs have open charges that are known to be right. What happens touches few CPUs, so a
//! leap looks at those alone.

ghost use Rattle.std.specs.Prelude.{ℕ, ◌≡◌, ◌≢◌, ◌⊎◌, ◌<◌, ◌≤◌, ◌/◌, IsTrue, false};
ghost use Rattle.std.specs.Int.{bit_at};

use cpu_marks::{both, with, without};

/// Which CPUs are stale: the running task may not have the right open charge. The others are right
/// for a sum of bandwidth and a limit, which are noted.
#[derive(Clone, Copy)]
pub struct StaleCharges {
    /// A word with a mark for each CPU that is stale.
    pub cpus: u64,
    /// A word with a mark for each other CPU whose open charge keeps what its rate was worked out
    /// from. On those without a mark the rate is right for each sum and limit.
    pub rated: u64,
    /// The bandwidth of all listed tasks, in 1/2^20 of a CPU.
    pub sum: u64,
    /// In 1/2^20 of a CPU.
    pub limit: u64,
}

/// The first place with a mark; 64 where there is none.
#[inline(always)]
pub fn first_marked(marks: u64) -> usize
    ensures within { result ≤ 64 }
    ensures marked { result < 64 → bit_at marks result ≡ 1 }
    ensures lowest { (i : ℕ) → i < result → bit_at marks i ≡ 0 }
{
    if marks == 0 {
        return 64;
    }
    cpu_marks::first(marks)
}

/// Of a word with marks the one at this place, if it has one there.
#[inline(always)]
fn mark_at(marks: u64, place: usize) -> u64
    requires { place < 64 }
    ensures here { bit_at result place ≡ bit_at marks place }
    ensures others { (i : ℕ) → i ≢ place → bit_at result i ≡ 0 }
{
    marks & with(0, place)
}

impl StaleCharges {
    /// Each CPU is stale, and a sum and a limit of zero are noted.
    pub fn all() -> StaleCharges
        ensures is_stale { (i : ℕ) → i < 64 → bit_at result.cpus i ≡ 1 }
        ensures rated { result.rated ≡ 0 }
        ensures sum { result.sum ≡ 0 }
        ensures limit { result.limit ≡ 0 }
    {
        StaleCharges {
            cpus: u64::MAX,
            rated: 0,
            sum: 0,
            limit: 0,
        }
    }

    /// Each CPU whose open charge keeps what its rate was worked out from is stale again.
    pub fn mark_rated(&mut self)
        ensures bare { (i : ℕ) → bit_at self.new.cpus i ≡ 0 → bit_at self.old.cpus i ≡ 0 }
        ensures free { (i : ℕ) → bit_at self.new.cpus i ≡ 0 → bit_at self.old.rated i ≡ 0 }
        ensures others { (i : ℕ) → bit_at self.old.rated i ≡ 0
            → bit_at self.new.cpus i ≡ bit_at self.old.cpus i }
        ensures rated { self.new.rated ≡ self.old.rated }
        ensures sum { self.new.sum ≡ self.old.sum }
        ensures limit { self.new.limit ≡ self.old.limit }
    {
        self.cpus = both(self.cpus, self.rated);
    }

    /// A CPU is stale; one that no domain has is not marked.
    #[inline(always)]
    pub fn mark(&mut self, cpu: usize)
        ensures marked { cpu < 64 → bit_at self.new.cpus cpu ≡ 1 }
        ensures others { (i : ℕ) → i ≢ cpu → bit_at self.new.cpus i ≡ bit_at self.old.cpus i }
        ensures bare { (i : ℕ) → bit_at self.new.cpus i ≡ 0 → bit_at self.old.cpus i ≡ 0 }
        ensures rated { self.new.rated ≡ self.old.rated }
        ensures sum { self.new.sum ≡ self.old.sum }
        ensures limit { self.new.limit ≡ self.old.limit }
    {
        if cpu < 64 {
            self.cpus = with(self.cpus, cpu);
        }
    }

    /// As `mark`, of a CPU whose open charge stays while its inactive bandwidth may be another: it
    /// is stale only where the open charge keeps what its rate was worked out from.
    #[inline(always)]
    pub fn mark_where_rated(&mut self, cpu: usize)
        ensures free { cpu < 64 → bit_at self.new.cpus cpu ≡ 0 → bit_at self.old.rated cpu ≡ 0 }
        ensures spared { bit_at self.old.rated cpu ≡ 0
            → bit_at self.new.cpus cpu ≡ bit_at self.old.cpus cpu }
        ensures others { (i : ℕ) → i ≢ cpu → bit_at self.new.cpus i ≡ bit_at self.old.cpus i }
        ensures bare { (i : ℕ) → bit_at self.new.cpus i ≡ 0 → bit_at self.old.cpus i ≡ 0 }
        ensures rated { self.new.rated ≡ self.old.rated }
        ensures sum { self.new.sum ≡ self.old.sum }
        ensures limit { self.new.limit ≡ self.old.limit }
    {
        if cpu < 64 {
            self.cpus = both(self.cpus, mark_at(self.rated, cpu));
        }
    }

    /// A task has left a CPU, or has changed there, and sat on it or did not: where it did the CPU
    /// is stale, and else only where its open charge keeps what its rate was worked out from.
    #[inline(always)]
    pub fn mark_left(&mut self, cpu: usize, was_started: bool)
        ensures was_started { IsTrue was_started → cpu < 64 → bit_at self.new.cpus cpu ≡ 1 }
        ensures free { was_started ≡ false → cpu < 64 → bit_at self.new.cpus cpu ≡ 0
            → bit_at self.old.rated cpu ≡ 0 }
        ensures spared { was_started ≡ false → bit_at self.old.rated cpu ≡ 0
            → bit_at self.new.cpus cpu ≡ bit_at self.old.cpus cpu }
        ensures others { (i : ℕ) → i ≢ cpu → bit_at self.new.cpus i ≡ bit_at self.old.cpus i }
        ensures bare { (i : ℕ) → bit_at self.new.cpus i ≡ 0 → bit_at self.old.cpus i ≡ 0 }
        ensures rated { self.new.rated ≡ self.old.rated }
        ensures sum { self.new.sum ≡ self.old.sum }
        ensures limit { self.new.limit ≡ self.old.limit }
    {
        if was_started {
            self.mark(cpu);
        } else {
            self.mark_where_rated(cpu);
        }
    }

    /// A CPU is stale no more. Its open charge may keep what its rate was worked out from, or does
    /// not.
    #[inline(always)]
    pub fn clear(&mut self, cpu: usize, is_rated: bool)
        requires { cpu < 64 }
        ensures others { (i : ℕ) → i ≢ cpu → bit_at self.new.cpus i ≡ bit_at self.old.cpus i }
        ensures elsewhere { (i : ℕ) → i ≢ cpu → bit_at self.new.rated i ≡ bit_at self.old.rated i }
        ensures cleared { bit_at self.new.cpus cpu ≡ 0 }
        ensures here { IsTrue is_rated → bit_at self.new.rated cpu ≡ 1 }
        ensures free { is_rated ≡ false → bit_at self.new.rated cpu ≡ 0 }
        ensures sum { self.new.sum ≡ self.old.sum }
        ensures limit { self.new.limit ≡ self.old.limit }
    {
        self.cpus = without(self.cpus, cpu);
        self.rated = if is_rated {
            with(self.rated, cpu)
        } else {
            without(self.rated, cpu)
        };
    }

    /// Whether this sum and this limit are noted.
    #[inline(always)]
    pub fn is_for(&self, sum: u64, limit: u64) -> bool
        ensures noted { IsTrue result → (self.now.sum ≡ sum) × (self.now.limit ≡ limit) }
        ensures same { self.now.sum ≡ sum → self.now.limit ≡ limit → IsTrue result }
    {
        self.sum == sum && self.limit == limit
    }

    /// Whether an open charge that is right for a sum and a limit is fresh: it keeps nothing of
    /// what its rate was worked out from, or they are noted.
    #[inline(always)]
    pub fn is_fresh(&self, is_rated: bool, sum: u64, limit: u64) -> bool
        ensures noted { IsTrue result → IsTrue is_rated
            → (self.now.sum ≡ sum) × (self.now.limit ≡ limit) }
        ensures free { is_rated ≡ false → IsTrue result }
        ensures same { self.now.sum ≡ sum → self.now.limit ≡ limit → IsTrue result }
    {
        if !is_rated {
            return true;
        }
        self.is_for(sum, limit)
    }

    /// A CPU whose open charge was made just now, for a sum and a limit, is stale only where the
    /// open charge keeps what its rate was worked out from, and others are noted.
    #[inline(always)]
    pub fn clear_for(&mut self, cpu: usize, is_rated: bool, sum: u64, limit: u64)
        requires { cpu < 64 }
        ensures others { (i : ℕ) → i ≢ cpu → bit_at self.new.cpus i ≡ bit_at self.old.cpus i }
        ensures elsewhere { (i : ℕ) → i ≢ cpu → bit_at self.new.rated i ≡ bit_at self.old.rated i }
        ensures marked { IsTrue is_rated → bit_at self.new.cpus cpu ≡ 0
            → bit_at self.new.rated cpu ≡ 1 }
        ensures noted { IsTrue is_rated → bit_at self.new.cpus cpu ≡ 0
            → (self.old.sum ≡ sum) × (self.old.limit ≡ limit) }
        ensures free { is_rated ≡ false → (bit_at self.new.cpus cpu ≡ 0)
            × (bit_at self.new.rated cpu ≡ 0) }
        ensures same { self.old.sum ≡ sum → self.old.limit ≡ limit
            → bit_at self.new.cpus cpu ≡ 0 }
        ensures sum { self.new.sum ≡ self.old.sum }
        ensures limit { self.new.limit ≡ self.old.limit }
    {
        if self.is_fresh(is_rated, sum, limit) {
            self.clear(cpu, is_rated);
        } else {
            self.mark(cpu);
        }
    }

    /// Another sum or another limit is noted. Then each CPU whose open charge keeps what its rate
    /// was worked out from is stale, unless so many CPUs have the same of both sums, and the limit
    /// stays.
    #[inline(always)]
    pub fn renew(&mut self, sum: u64, cpus: u64, limit: u64)
        requires { 0 < cpus }
        ensures bare { (i : ℕ) → bit_at self.new.cpus i ≡ 0 → bit_at self.old.cpus i ≡ 0 }
        ensures free { (i : ℕ) → bit_at self.new.cpus i ≡ 0
            → (bit_at self.old.rated i ≡ 0)
            ⊎ ((self.old.sum / cpus ≡ sum / cpus) × (self.old.limit ≡ limit)) }
        ensures others { (i : ℕ) → bit_at self.old.rated i ≡ 0
            → bit_at self.new.cpus i ≡ bit_at self.old.cpus i }
        ensures same { self.old.sum / cpus ≡ sum / cpus → self.old.limit ≡ limit
            → self.new.cpus ≡ self.old.cpus }
        ensures rated { self.new.rated ≡ self.old.rated }
        ensures sum { self.new.sum ≡ sum }
        ensures limit { self.new.limit ≡ limit }
    {
        if self.is_for(sum, limit) {
            return;
        }
        if self.limit != limit || self.sum / cpus != sum / cpus {
            self.mark_rated();
        }
        self.sum = sum;
        self.limit = limit;
    }
}
