//! An advance, streamed piece by piece.

ghost use Rattle.std.specs.Prelude.{◌≡◌, ◌<◌, ◌≤◌, ◌+◌, ◌++◌, true, [], map, IfOk, OnOk, OnErr};
ghost use Rattle.domain_run.specs.Tick.{ticks as ticks_of};
ghost use Rattle.domain_run.specs.Happened.{logged_by_ticks};
ghost use Rattle.domain_run.specs.Keys.{AreKept};
ghost use Rattle.domain_run.specs.Log.{HasLogged};
ghost use Rattle.domain_run.specs.Passing.{without_switches};
ghost use Rattle.run_figures.specs.Accounting.{IsNextPiece, with_piece};
ghost use Rattle.run_figures.specs.Runs.{AreTasks};
ghost use Rattle.streamed_run.specs.Streamed.{nothing_streamed, streamed_after, IsStreamedUpTo, piece_end};
ghost use Rattle.jump_run.specs.Pieces.{IsBounded};
ghost use Rattle.limits.specs.Limits.{clock_end};

use domain_run::{Log, NoMemory, State};
use jump_run::{Done, advance_piece};
use run_figures::{Accounting, Admitted, Sink};
use std::alloc::Global;

/// The switches, or the entries of the log, that end a piece: a switch is 16 bytes and what happens
/// 32, so a piece holds some 192 kB, and one more event.
const ENOUGH: usize = 4096;

/// A task by its number. An accounting takes of its parameters only at its end.
fn by_number(number: u32) -> Admitted
    ensures { result ≡ record { number = number; runtime = 0; period = 0 } }
{
    Admitted {
        number,
        runtime: 0,
        period: 0,
    }
}

/// The tasks that were ever admitted, by number.
///
/// # Errors
/// 12 [`NoMemory`]: a growth was refused; nothing is left.
pub fn tasks_of(alloc: Global, state: &State) -> Result<Vec<Admitted>, NoMemory>
    ensures tasks { IfOk result (λ v. map (λ t. t.number) v.items ≡ state.now.used) }
    ensures apart { IfOk result (λ v. AreTasks v.items) }
{
    let numbers = state.numbers(alloc)?;
    let mut tasks = Vec::with_capacity(alloc, numbers.len())?;
    for number in &numbers {
        tasks.push_reserved(by_number(*number));
    }
    Ok(tasks)
}

/// An accounting of the run of a domain that is to end `n` ticks from now, which has streamed
/// nothing yet: of all tasks that were ever admitted. Time stays within 2^42 us.
///
/// # Errors
/// 12 [`NoMemory`]: a growth was refused; nothing is left.
pub fn open_streamed(alloc: Global, state: &State, n: u64) -> Result<Accounting, NoMemory>
    requires { state.now.time + n ≤ clock_end }
    ensures { IfOk result (λ a. a ≡ nothing_streamed n state.now) }
{
    let tasks = tasks_of(alloc, state)?;
    Accounting::open(alloc, state.cpus(), state.now() + n, &tasks)
}

/// As [`open_streamed`], and keeps the jobs of each task too. Its periods are not counted: all of
/// them are simulated.
///
/// # Errors
/// 12 [`NoMemory`]: a growth was refused; nothing is left.
pub fn open_streamed_with_jobs(alloc: Global, state: &State, n: u64) -> Result<Accounting, NoMemory>
    requires { state.now.time + n ≤ clock_end }
    ensures { IfOk result (λ a. a ≡ nothing_streamed n state.now) }
{
    let tasks = tasks_of(alloc, state)?;
    Accounting::open_with_jobs(alloc, state.cpus(), state.now() + n, &tasks)
}

/// What the log has and the switches of the state are streamed, and both forget it.
pub(crate) fn stream<H: Sink>(state: &mut State, log: &mut Log, accounting: &mut H)
    requires next { IsNextPiece (H.streamed accounting.old) log.old.happened state.old.switches }
    ensures streamed { H.streamed accounting.new
        ≡ with_piece (H.streamed accounting.old) log.old.happened state.old.switches }
    ensures kept { H.kept accounting.new ≡ H.kept accounting.old }
    ensures state { state.new ≡ without_switches state.old }
    ensures wanted { log.new.wanted ≡ log.old.wanted }
    ensures empty { log.new.happened ≡ [] }
{
    accounting.stream(log.happened(), state.switches());
    log.clear();
    state.forget_switches();
}

/// The next piece, of at most `n` ticks: returns how many were made, at least one. `Err` if a
/// growth was refused before it; nothing has changed then.
pub(crate) fn next_piece(state: &mut State, n: u64, log: &mut Log) -> Result<u64, NoMemory>
    requires early { state.old.time + n ≤ clock_end }
    requires some { 0 < n }
    requires forgotten { state.old.switches ≡ [] }
    requires empty { log.old.happened ≡ [] }
    ensures some { IfOk result (λ made. 0 < made) }
    ensures most { IfOk result (λ made. made ≤ n) }
    ensures ok { IfOk result (λ made. state.new ≡ ticks_of made state.old) }
    ensures err { OnErr result (state.new ≡ state.old) }
    ensures unlogged { OnErr result (HasLogged log.old [] log.new) }
    ensures keys { AreKept state.old.tasks state.new.tasks }
    ensures logged { IfOk result
        (λ made. HasLogged log.old (logged_by_ticks made state.old) log.new) }
    ensures bounded { OnOk result (IsBounded piece_end state.new log.new) }
{
    let piece = advance_piece(state, n, ENOUGH, log);
    if piece.is_refused && piece.ticks == 0 {
        return Err(NoMemory);
    }
    Ok(piece.ticks)
}

/// Goes on by `n` ticks, as [`advance_logged`](jump_run::advance_logged) does, while what has
/// streamed this run up to here, such as an [`Accounting`], goes on to take it: first what the log
/// and the state have at hand, and then, piece by piece, what happens in these ticks and the
/// switches that they make. State and log forget what was streamed, so they hold a bounded number
/// of both, however much happens. At the end the state is that of these ticks, without its
/// switches, and the run is streamed up to there. Room for an event is made before it; where it is
/// refused, the ticks made so far stand and are streamed, and only then are they fewer than asked.
/// Time stays within the end of the run. Tasks that have left may go off the list; nobody comes,
/// and the others keep number, bandwidth and order.
pub fn advance_streamed_on<H: Sink>(
    state: &mut State,
    n: u64,
    log: &mut Log,
    accounting: &mut H,
) -> Done
    requires early { state.old.time + n ≤ (H.streamed accounting.old).time }
    requires end { (H.streamed accounting.old).time ≤ clock_end }
    requires wanted { log.old.wanted ≡ true }
    requires up_to { IsStreamedUpTo state.old log.old.happened (H.streamed accounting.old) }
    ensures state { state.new ≡ without_switches (ticks_of result.ticks state.old) }
    ensures most { result.ticks ≤ n }
    ensures keys { AreKept state.old.tasks state.new.tasks }
    ensures streamed { H.streamed accounting.new ≡ with_piece (H.streamed accounting.old)
        (log.old.happened ++ logged_by_ticks result.ticks state.old)
        (ticks_of result.ticks state.old).switches }
    ensures kept { H.kept accounting.new ≡ H.kept accounting.old }
    ensures wanted { log.new.wanted ≡ true }
    ensures empty { log.new.happened ≡ [] }
    ensures up_to { IsStreamedUpTo state.new log.new.happened (H.streamed accounting.new) }
{
    // For the prover alone, here and below: a look at a state brings what every domain keeps.
    let _ = state.now();
    stream(state, log, accounting);
    let mut ticks = 0;
    'pieces: while ticks < n {
        let Ok(made) = next_piece(state, n - ticks, log) else {
            break;
        };
        let _ = state.now();
        stream(state, log, accounting);
        ticks += made;
    }
    Done { ticks }
}

/// As [`advance_streamed_on`], from the start of a run: of its switches so far, and of what happens
/// in these ticks. It opens a log of its own.
pub fn advance_from_start<H: Sink>(
    alloc: Global,
    state: &mut State,
    n: u64,
    accounting: &mut H,
) -> Done
    requires early { state.old.time + n ≤ clock_end }
    requires new { H.streamed accounting.old ≡ nothing_streamed n state.old }
    ensures state { state.new ≡ without_switches (ticks_of result.ticks state.old) }
    ensures most { result.ticks ≤ n }
    ensures keys { AreKept state.old.tasks state.new.tasks }
    ensures streamed { H.streamed accounting.new ≡ streamed_after n result.ticks state.old }
    ensures kept { H.kept accounting.new ≡ H.kept accounting.old }
{
    let mut log = Log::open(alloc);
    // For the prover alone: a look at a state brings what every domain keeps.
    let _ = state.now();
    advance_streamed_on(state, n, &mut log, accounting)
}
