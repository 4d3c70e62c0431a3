//! From the words of a command line to the options of a run.

ghost use Rattle.std.specs.Prelude.{◌≡◌, ◌≢◌, ◌<◌, ◌≤◌, ℕ, List, IfSome, IfOk, IfErr};
ghost use Rattle.std.specs.Prelude.{IsErrOf, None, true, false, decimal, map, slice_index};
ghost use Rattle.std.specs.Int.{IsInRange};
ghost use Rattle.std.specs.List.{slice_split};
ghost use Rattle.domain_run.specs.Domain.{IsCpus, IsLimit};
ghost use Rattle.run_options.specs.Options.{AreOptions};
ghost use Rattle.run_options.specs.Words.{is_comma, IsList, limit_of};
ghost use Rattle.run_options.specs.Words.{AreMeant, IsAsAsked, IsWordsFault, span_of, no_part_asked, words_status};

use crate::options::{Options, Print};
use attr_check::to_ratio;
use chart_pieces::Span;
use std::alloc::{AllocError, Global};
use std::fmt;

/// The most root domains of a run.
const MOST_DOMAINS: usize = 8;

/// How many calls the history of each domain has room for.
const HISTORY: usize = 1024;

/// The last microsecond of a run that a chart can show.
const LAST_MOMENT: u64 = 1 << 42;

/// The words that say how a scenario is run, as a command line has them.
#[derive(Clone, Copy)]
pub struct Words<'a> {
    /// The list of root domains: the number of CPUs of each, 1 to 64, in decimal without leading
    /// zeros; 1 to 8 of them, with commas between them and no spaces.
    pub domains: &'a str,
    /// What deadline tasks may take of each CPU in `rt_period`, in any unit of time that both
    /// share.
    pub rt_runtime: u64,
    /// See `rt_runtime`.
    pub rt_period: u64,
    /// How many clients admit tasks, 1 to 64.
    pub clients: u32,
    /// How many worker threads compute each domain, 1 to 8.
    pub workers: usize,
    /// Whether every task asks for reclaiming.
    pub reclaim: bool,
    /// What is written of the run.
    pub print: Print,
}

/// The words that say which part of a run a chart shows, as a command line has them. Times are in
/// microseconds.
#[derive(Clone, Copy)]
pub struct SpanWords {
    /// Where the part begins, if that is said.
    pub from: Option<u64>,
    /// Where it ends, if that is said.
    pub to: Option<u64>,
}

/// Why words give no options.
#[derive(Clone, Copy, Debug)]
pub enum WordsFault {
    /// The part of the run that a chart is to show does not begin before it ends.
    Window,
    /// A part of the run is asked for, and what is written is no chart.
    NoChart,
    /// The domains are no list of numbers of CPUs.
    List,
    /// The limit is none from a hundredth of a CPU to the whole.
    Limit,
    /// A growth was refused.
    Memory,
}

impl WordsFault {
    /// The exit status of the program: 2 for wrong words, 4 for want of memory.
    pub fn status(self) -> u8
        ensures { result ≡ words_status self }
    {
        match self {
            WordsFault::Window | WordsFault::NoChart | WordsFault::List | WordsFault::Limit => 2,
            WordsFault::Memory => 4,
        }
    }
}

impl fmt::Display for WordsFault {
    ghost use Rattle.std.specs.Prelude.{Some};
    ghost use Rattle.run_options.specs.Words.{words_text};

    ghost output = { λ fault. Some (words_text fault) };

    fn fmt<W: fmt::Write>(&self, f: &mut fmt::Formatter<W>) -> fmt::Result {
        f.write_str(match self {
            WordsFault::Window => "empty window",
            WordsFault::NoChart => "no chart to cut",
            WordsFault::List => "bad list",
            WordsFault::Limit => "limit out of range",
            WordsFault::Memory => "out of memory",
        })
    }
}

impl From<AllocError> for WordsFault {
    ghost use Rattle.std.specs.Prelude.{◌≡◌};
    ghost use Rattle.run_options.specs.declared.words.WordsFault.TheVariants.{Memory};

    ghost from_gives = { λ _ fault. fault ≡ Memory };

    fn from(_e: AllocError) -> WordsFault {
        WordsFault::Memory
    }
}

/// What stands between the commas of a text.
fn pieces_of(alloc: Global, text: &str) -> Result<Vec<&str>, AllocError>
    ensures { IfOk result (λ pieces. map (λ piece. piece.now) pieces.items
        ≡ slice_split is_comma text.now) }
{
    text.split(',').collect(alloc)
}

/// Whether the first byte is one of the digits from 1 to 9.
fn begins_well(piece: &str) -> bool
    ensures yes { result ≡ true → IsInRange 49 57 (slice_index piece.now 0) }
    ensures no { result ≡ false → IsInRange 49 57 (slice_index piece.now 0) → ⊥ }
{
    match piece.as_bytes().first() {
        Some(first) => b'1' <= *first && *first <= b'9',
        None => false,
    }
}

/// The number of CPUs that a piece of a list spells.
fn read_cpus(piece: &str) -> Option<u32>
    ensures some { IfSome result (λ cpus. IsCpus cpus × (piece.now ≡ decimal cpus)) }
    ensures none { result ≡ None → (cpus : ℕ) → IsCpus cpus → piece.now ≢ decimal cpus }
{
    if !begins_well(piece) {
        return None;
    }
    match piece.parse::<u32>() {
        Ok(cpus) if cpus <= 64 => Some(cpus),
        _ => None,
    }
}

/// The numbers of CPUs that a list spells: 1 to 8 numbers from 1 to 64, in decimal without leading
/// zeros, with commas between them.
///
/// # Errors
/// [`WordsFault::List`]: the text spells no such list. [`WordsFault::Memory`]: a growth was
/// refused.
pub fn read_list(alloc: Global, text: &str) -> Result<Vec<u32>, WordsFault>
    ensures ok { IfOk result (λ list. IsList text.now list.items) }
    ensures bad { IsErrOf result WordsFault.List → (cpus : List ℕ) → IsList text.now cpus → ⊥ }
    ensures other { IsErrOf result WordsFault.Limit → ⊥ }
    ensures window { IsErrOf result WordsFault.Window → ⊥ }
    ensures no_chart { IsErrOf result WordsFault.NoChart → ⊥ }
{
    let pieces = pieces_of(alloc, text)?;
    if pieces.len() > MOST_DOMAINS {
        return Err(WordsFault::List);
    }
    let mut list = Vec::with_capacity(alloc, MOST_DOMAINS)?;
    for piece in &pieces {
        let Some(cpus) = read_cpus(piece) else {
            return Err(WordsFault::List);
        };
        list.push_reserved(cpus);
    }
    Ok(list)
}

/// What deadline tasks may take of each CPU, in 1/2^20, rounded down (sched-deadline.rst,
/// "Bandwidth management"); none outside of a hundredth of the CPU to the whole. Takes no memory.
pub fn read_limit(rt_runtime: u64, rt_period: u64) -> Option<u64>
    ensures limit { result ≡ limit_of rt_runtime rt_period }
    ensures range { IfSome result IsLimit }
{
    let least = u128::from(rt_runtime) * 100;
    if rt_period == 0 || rt_runtime > rt_period || least < u128::from(rt_period) {
        return None;
    }
    Some(to_ratio(rt_period, rt_runtime))
}

/// The part of a run that the words ask for. Where they do not say so, it begins with the run, and
/// ends with it.
///
/// # Errors
/// [`WordsFault::Window`]: the part does not begin before it ends, or before 2^42 us where no end
/// is said; or it ends behind 2^42 us.
pub fn read_span(words: SpanWords) -> Result<Span, WordsFault>
    ensures span { result ≡ span_of words }
    ensures shown { IfOk result IsAsAsked }
{
    let from = words.from.unwrap_or(0);
    let last = words.to.unwrap_or(LAST_MOMENT);
    if from < last && last <= LAST_MOMENT {
        Ok(Span { from, to: words.to })
    } else {
        Err(WordsFault::Window)
    }
}

/// That the words ask for no part of a run, as it is to be where what is written is no chart.
///
/// # Errors
/// [`WordsFault::NoChart`]: they ask for one.
pub fn read_uncut(words: SpanWords) -> Result<(), WordsFault>
    ensures { result ≡ no_part_asked words }
{
    if words.from.is_none() && words.to.is_none() {
        Ok(())
    } else {
        Err(WordsFault::NoChart)
    }
}

/// The options that the words mean; each history has room for 1024 calls.
///
/// # Errors
/// In the order of the tests: [`WordsFault::List`], [`WordsFault::Limit`]. [`WordsFault::Memory`]
/// where a growth was refused, before any other.
pub fn read_options(alloc: Global, words: &Words<'_>) -> Result<Options, WordsFault>
    requires a_client { 0 < words.now.clients }
    requires few_clients { words.now.clients ≤ 64 }
    requires a_worker { 0 < words.now.workers }
    requires few_workers { words.now.workers ≤ 8 }
    ensures meant { IfOk result (AreMeant words.now) }
    ensures sound { IfOk result AreOptions }
    ensures err { IfErr result (IsWordsFault words.now) }
{
    let domains = read_list(alloc, words.domains)?;
    let Some(limit) = read_limit(words.rt_runtime, words.rt_period) else {
        return Err(WordsFault::Limit);
    };
    Ok(Options {
        domains,
        limit,
        clients: words.clients,
        workers: words.workers,
        history: HISTORY,
        reclaim: words.reclaim,
        print: words.print,
    })
}
