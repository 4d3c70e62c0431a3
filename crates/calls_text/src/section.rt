use domain_run::{Call, Reply};
use std::marker::Model;

/// A call of a client on a domain, and the reply.
#[derive(Drop)]
pub struct Entry {
    /// Who called, 1 to 64.
    pub client: u32,
    /// How many calls the client made on this domain before this one.
    pub seq: u64,
    pub call: Call,
    /// What the domain answered. Calls that were read from a text have no reply: it follows from
    /// the calls.
    pub reply: Option<Reply>,
}

/// One domain and the calls on it, in their order.
#[derive(Drop)]
pub struct Section {
    /// CPUs of the domain, 1 to 64.
    pub cpus: u32,
    /// What the domain's tasks may take of each CPU, 10485 to 1048576 (1/2^20 of a CPU).
    pub limit: u64,
    /// At most 65536.
    pub entries: Vec<Entry>,
}

impl Model for Section {
    ghost use Rattle.calls_text.specs.SectionView.{SectionView};

    ghost Value = { SectionView };

    ghost view = { λ s. record { cpus = s.cpus; limit = s.limit; entries = s.entries.items } };
}
