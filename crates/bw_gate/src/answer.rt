use crate::piece::{Blank, Ticket};

/// What [`Gate::try_take`](crate::Gate::try_take) answers.
pub enum Take {
    /// The bandwidth is taken.
    Taken(Ticket),
    /// EBUSY 16: what is used of the word that was found and the bandwidth are above the cap that
    /// this word carries. The word is as it was.
    Refused {
        /// The blank, as it was but for what it found.
        blank: Blank,
        /// The whole word that was found.
        seen: u64,
    },
    /// Another client changed the word between the two steps. The word is as that client left it.
    Raced {
        /// The blank, as it was but for what it found.
        blank: Blank,
        /// The whole word that the first step found.
        expected: u64,
        /// The whole word that the second step found.
        seen: u64,
    },
}

/// What [`Gate::try_regrade`](crate::Gate::try_regrade) answers.
pub enum Regrade {
    /// The ticket has its new bandwidth.
    Changed(Ticket),
    /// EBUSY 16: what is used of the word that was found, with the new bandwidth in place of the
    /// old one, is above the cap that this word carries. The word is as it was.
    Refused {
        /// The ticket, as it was but for what it found.
        ticket: Ticket,
        /// The whole word that was found.
        seen: u64,
    },
    /// Another client changed the word between the two steps. The word is as that client left it.
    Raced {
        /// The ticket, as it was but for what it found.
        ticket: Ticket,
        /// The whole word that the first step found.
        expected: u64,
        /// The whole word that the second step found.
        seen: u64,
    },
}

/// What [`Gate::try_limit`](crate::Gate::try_limit) answers.
pub enum Limit {
    /// The domain's word carries the new cap.
    Set(Blank),
    /// EBUSY 16: more is used of the word that was found than the new cap. The word is as it was.
    Refused {
        /// The blank, as it was but for what it found.
        blank: Blank,
        /// The whole word that was found.
        seen: u64,
    },
    /// Another client changed the word between the two steps. The word is as that client left it.
    Raced {
        /// The blank, as it was but for what it found.
        blank: Blank,
        /// The whole word that the first step found.
        expected: u64,
        /// The whole word that the second step found.
        seen: u64,
    },
}

/// The two parts of the words of a closed gate.
#[derive(Clone, Copy)]
pub struct Words {
    /// How many domains the gate had.
    pub count: usize,
    /// What is used of the word of each, in 1/2^20 of a CPU, and zeros behind.
    pub word: [u64; 8],
    /// The cap that the word of each carries, in 1/2^20 of a CPU, and zeros behind.
    pub cap: [u64; 8],
}
