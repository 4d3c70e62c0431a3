use crate::refusal::Refusal;
use call_book::Section;
use chart_pieces::{Drawing, Window};
use domain_run::{Log, State};
use run_figures::Accounting;

/// What a session left.
#[derive(Drop)]
pub struct Report {
    /// The history of each domain, with its CPUs and its limit, in the order of domains.
    pub histories: Vec<Section>,
    /// The tasks that were refused, by number. A session's end leaves it empty; who ran a scenario
    /// fills it.
    pub refused: Vec<(u32, Refusal)>,
    /// What was used of the bandwidth word of each domain, in 1/2^20 of a CPU.
    pub words: Vec<u64>,
    /// The cap that each of these words carried: the domain's CPUs times its limit, which is
    /// 10485 to 1048576.
    pub caps: Vec<u64>,
    /// How many pieces came to the gate's end: where it is 256 a domain and one a client, all did.
    pub home: usize,
}

/// What is wanted of a run, beside its histories.
#[derive(Clone, Copy)]
pub enum Wanted {
    /// The states, with their switches.
    Switches,
    /// The states, with their switches, and what happened.
    Happened,
    /// What figures are made of: the switches and what happened are streamed, and let go of at
    /// once.
    Figures,
    /// As for figures, and the jobs of each task, which are kept in few bytes each.
    Jobs,
    /// What the chart of this part of the run is made of. The rest of the run is not kept.
    Chart(Window),
}

/// What a run in a session left, with the state of each domain and what happened in it, in their
/// order. For the crate above, which writes the run.
#[derive(Drop)]
pub struct Finished {
    /// As the session's end gives it; nobody stands among the refused.
    pub report: Report,
    /// The state of each domain, to which its history leads; without its switches if figures, jobs
    /// or a chart were wanted.
    pub states: Vec<State>,
    /// One for each domain; it keeps what happened in the advance at the end where that was wanted,
    /// else nothing. None if figures, jobs or a chart were wanted.
    pub logs: Vec<Log>,
    /// One for each domain if figures or jobs were wanted: it streamed all switches of the run, and
    /// what happened in the advance at the end. Else none.
    pub streamed: Vec<Accounting>,
    /// One for each domain if a chart was wanted: it drew all switches of the run, and what
    /// happened in the advance at the end. Else none.
    pub drawn: Vec<Drawing>,
}
