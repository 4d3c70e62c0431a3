//! The heads of several runs, and which of them comes first: a tree of winners.

ghost use Rattle.std.specs.Prelude.{ℕ, length, ◌≡◌, ◌<◌, ◌*◌, ◌+◌, ◌/◌, slice_index, slice_set, ◌≢◌};
ghost use Rattle.switch_text.specs.private.Winning as spec;
ghost use Rattle.switch_text.specs.private.Winning.{Wins, ArePairs, AreHalves, IsWinningTree, head_in, no_head};

/// When and on which CPU of the machine the next switch of a run is.
#[derive(Clone, Copy)]
pub(crate) struct Head {
    pub(crate) time: u64,
    pub(crate) cpu: u32,
}

impl Head {
    /// The head of a run of which nothing is left: later than any other.
    #[inline(always)]
    pub(crate) fn none() -> Head
        ensures { result ≡ no_head }
    {
        Head {
            time: u64::MAX,
            cpu: u32::MAX,
        }
    }

    // Without a branch, since which of two runs goes first is hard to foresee.
    #[inline(always)]
    fn is_sooner_than(self, other: Head) -> bool
        ensures { result ≡ spec.is_head_sooner self other }
    {
        (self.time < other.time) | ((self.time == other.time) & (self.cpu < other.cpu))
    }
}

/// The heads of 8 runs, and of each two of them, each four and all the place of that which comes
/// first.
#[derive(Clone, Copy)]
pub(crate) struct Heads {
    pub(crate) heads: [Head; 8],
    pub(crate) pairs: [usize; 4],
    pub(crate) halves: [usize; 2],
    pub(crate) first: usize,
}

/// Of two places the one whose head comes first. They may be the winners of two ranges, one after
/// the other.
#[inline(always)]
fn winner(heads: &[Head; 8], a: usize, b: usize) -> usize
    requires one { a < 8 }
    requires other { b < 8 }
    ensures { (from mid to : ℕ) → Wins heads.now from mid a → Wins heads.now mid to b
        → Wins heads.now from to result }
{
    if heads[b].is_sooner_than(heads[a]) {
        return b;
    }
    a
}

impl Heads {
    /// Of 8 runs of which nothing is left.
    #[inline(always)]
    pub(crate) fn none() -> Heads
        ensures long { length result.heads ≡ 8 }
        ensures heads { (i : ℕ) → i < 8 → head_in result.heads i ≡ no_head }
        ensures tree { IsWinningTree result }
        ensures first { result.first ≡ 0 }
    {
        Heads {
            heads: [Head::none(); 8],
            pairs: [0, 2, 4, 6],
            halves: [0, 4],
            first: 0,
        }
    }

    // Lets the two play among which a place is.
    #[inline(always)]
    fn play_pair(&mut self, place: usize)
        requires place { place < 8 }
        requires others { (p : ℕ) → p < 4 → p ≢ place / 2
            → Wins self.old.heads (2 * p) (2 * p + 2) (slice_index self.old.pairs p) }
        ensures heads { self.new.heads ≡ self.old.heads }
        ensures pairs { ArePairs self.new.heads self.new.pairs }
        ensures halves { self.new.halves ≡ self.old.halves }
    {
        let pair = place / 2;
        self.pairs[pair] = winner(&self.heads, 2 * pair, 2 * pair + 1);
    }

    // Lets the winners of two pairs play, among which a place is.
    #[inline(always)]
    fn play_half(&mut self, place: usize)
        requires place { place < 8 }
        requires pairs { ArePairs self.old.heads self.old.pairs }
        requires others { (q : ℕ) → q < 2 → q ≢ place / 4
            → Wins self.old.heads (4 * q) (4 * q + 4) (slice_index self.old.halves q) }
        ensures heads { self.new.heads ≡ self.old.heads }
        ensures pairs { self.new.pairs ≡ self.old.pairs }
        ensures halves { AreHalves self.new.heads self.new.halves }
    {
        let half = place / 4;
        self.halves[half] = winner(&self.heads, self.pairs[2 * half], self.pairs[2 * half + 1]);
    }

    // Lets the winners of both halves play.
    #[inline(always)]
    fn play_last(&mut self)
        requires pairs { ArePairs self.old.heads self.old.pairs }
        requires halves { AreHalves self.old.heads self.old.halves }
        ensures heads { self.new.heads ≡ self.old.heads }
        ensures tree { IsWinningTree self.new }
    {
        self.first = winner(&self.heads, self.halves[0], self.halves[1]);
    }

    /// Puts another head at a place, and lets it play up to the root.
    #[inline(always)]
    pub(crate) fn change(&mut self, place: usize, head: Head)
        requires place { place < 8 }
        requires tree { IsWinningTree self.old }
        ensures heads { self.new.heads ≡ slice_set self.old.heads place head }
        ensures tree { IsWinningTree self.new }
    {
        self.heads[place] = head;
        self.play_pair(place);
        self.play_half(place);
        self.play_last();
    }
}
