/// One change of a domain's book, which tells the admitted tasks. Bandwidths are in 1/2^20 of a
/// CPU.
#[derive(Clone, Copy)]
pub enum Change {
    /// A task is admitted.
    Entered {
        /// Number of the task.
        number: u32,
        /// Id of its ticket.
        ticket: u64,
        /// Bandwidth of its ticket.
        bw: u64,
    },
    /// An admitted task has another bandwidth.
    Regraded {
        /// Number of the task.
        number: u32,
        /// Its new bandwidth.
        bw: u64,
    },
    /// A task is admitted no more.
    Released {
        /// Number of the task.
        number: u32,
    },
}
