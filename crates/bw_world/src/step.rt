/// The most that the cap of a word may be changed to: 2^26, which is 64 whole CPUs.
pub const WIDEST: u64 = 67108864;

/// A bandwidth word, in 1/2^20 of a CPU.
#[derive(Clone, Copy, PartialEq, Eq)]
pub struct Word {
    /// The cap: number of CPUs times the limit of one CPU.
    pub cap: u64,
    /// What is used of it.
    pub used: u64,
}

/// A step of a world. A domain is named by its index, a ticket by its id, which the caller chooses,
/// and a task by its number. Bandwidths and words are in 1/2^20 of a CPU. A step that does not fit
/// is answered [`Outcome::Not`].
#[derive(Clone, Copy)]
pub enum Step {
    /// Reads a domain's word. It fits where the domain exists.
    Load {
        /// Index of the domain, from 0.
        domain: usize,
    },
    /// Takes a new ticket, if the word is the expected one and has room for it. It fits where no
    /// live ticket of any domain has the id, the domain exists and `bw` is at most [`UNIT`].
    Take {
        /// Id of the new ticket.
        ticket: u64,
        /// Index of the domain, from 0.
        domain: usize,
        /// Bandwidth of the ticket.
        bw: u64,
        /// The word as the caller knows it.
        expected: Word,
    },
    /// Gives a ticket another bandwidth, if the word is the expected one and has room for it. It
    /// fits a live ticket, in hand or in an admitted task; in a task it is a change of the book
    /// too.
    Regrade {
        /// Id of the ticket.
        ticket: u64,
        /// Its new bandwidth.
        bw: u64,
        /// The word as the caller knows it.
        expected: Word,
    },
    /// Gives a ticket's bandwidth back; the ticket is gone. It fits a ticket in hand.
    Give {
        /// Id of the ticket.
        ticket: u64,
    },
    /// Puts a ticket into a task, which is admitted so; the word stays. It fits a ticket in hand
    /// whose domain has no admitted task of the number.
    Enter {
        /// Id of the ticket.
        ticket: u64,
        /// Number of the task.
        number: u32,
    },
    /// Takes a ticket out of its task, which is admitted no more; the ticket is in hand again, and
    /// the word stays. It fits an admitted ticket.
    Release {
        /// Id of the ticket.
        ticket: u64,
    },
    /// Gives the word another cap, if it is the expected one and no more is used of it than the new
    /// cap. It fits where the domain exists and the new cap is at most [`WIDEST`].
    Limit {
        /// Index of the domain, from 0.
        domain: usize,
        /// The new cap.
        cap: u64,
        /// The word as the caller knows it.
        expected: Word,
    },
    /// Moves an admitted task to another domain: its ticket is in hand again, and another one, in
    /// hand there, goes into it; both words stay. It fits where `old` is the ticket of an admitted
    /// task of the number, and `new` is in hand with as much in another domain, which has no
    /// admitted task of the number.
    Move {
        /// Id of the task's ticket.
        old: u64,
        /// Id of the ticket in hand in the other domain.
        new: u64,
        /// Number of the task.
        number: u32,
    },
}

/// What a world answers to a step. All but [`Outcome::Done`] change nothing.
#[derive(Clone, Copy, PartialEq, Eq)]
pub enum Outcome {
    /// The word, to a Load.
    Saw(Word),
    /// The step is done.
    Done,
    /// EBUSY 16: the word is the expected one, and the step would leave more used than its cap.
    /// Holds the word.
    Over(Word),
    /// The word is not the expected one. This is tested before Over. Holds the word.
    Lost(Word),
    /// The step does not fit.
    Not,
}
