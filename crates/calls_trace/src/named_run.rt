//! The run of the calls of a section.

ghost use Rattle.std.specs.Prelude.{◌≡◌, ◌<◌, ◌≤◌, ◌+◌, [], OnOk, IfOk, IsTrue, if◌then◌else◌};
ghost use Rattle.std.specs.String.{string_bytes};
ghost use Rattle.task_script.specs.NameView.{IsName};
ghost use Rattle.domain_run.specs.declared.call.Call.TheVariants as Call;
ghost use Rattle.domain_run.specs.Domain.{IsLimit, empty_domain};
ghost use Rattle.domain_run.specs.Calls.{after_call};
ghost use Rattle.domain_run.specs.Happened.{logged_by_call, logged_by_ticks};
ghost use Rattle.domain_run.specs.Log.{HasLogged};
ghost use Rattle.domain_run.specs.Tick.{ticks as ticked_by};
ghost use Rattle.calls_text.specs.Limits.{IsTaskNumber, IsCall};
ghost use Rattle.calls_text.specs.Histories.{IsLegal};
ghost use Rattle.calls_text.specs.KeptCall.{call_kept};
ghost use Rattle.switch_text.specs.Names.{name_of_task};
ghost use Rattle.calls_trace.specs.Replay.{no_names, with_name, names_after};
ghost use Rattle.calls_trace.specs.DomainEvents.{names_in, params_in, no_params, with_params, params_after};
ghost use Rattle.calls_trace.specs.private.Replaying.{AdmittedHaveNames, MapGives, GivesParams, given_in};
ghost use Rattle.calls_trace.specs.private.Recorded.{names_given_by, given_by_all, params_given_by, params_given_by_all};
ghost use Rattle.limits.specs.Limits.{clock_end, max_advance, max_script_number};

use crate::laid_out::lay_out_if_admitted;
use attr_check::Params;
use calls_text::{Entry, Kept, Reused, Section};
use domain_run::{Call, Log, Name, NoMemory, Reply, Script, State};
use indexmap::IndexMap;
use std::alloc::Global;

/// A domain whose calls are made one by one, and what is known of its tasks by their numbers.
#[derive(Drop)]
pub(crate) struct RunWithNames {
    pub(crate) state: State,
    pub(crate) names: IndexMap<u32, String>,
    /// The parameters of each number that was admitted, as they are now, where the log is wanted;
    /// else nothing. No text is made of them without what happens.
    pub(crate) given: IndexMap<u32, Params>,
    /// What happens, where that is asked for.
    pub(crate) log: Log,
}

/// The text of a name.
pub(crate) fn text_of(alloc: Global, name: &Name) -> Result<String, NoMemory>
    ensures text { IfOk result (λ text. string_bytes text ≡ name.now) }
    ensures name { IsName name.now }
{
    match String::from_str(alloc, name.as_str()) {
        Ok(text) => Ok(text),
        Err(_) => Err(NoMemory),
    }
}

fn put_name(names: &mut IndexMap<u32, String>, number: u32, text: String) -> Result<(), NoMemory>
    ensures ok { OnOk result (MapGives names.new
        (with_name (name_of_task names.old) number (string_bytes text))) }
{
    match names.insert(number, text) {
        Ok(_) => Ok(()),
        Err(_) => Err(NoMemory),
    }
}

fn put_params(
    given: &mut IndexMap<u32, Params>,
    number: u32,
    params: Params,
) -> Result<(), NoMemory>
    ensures ok { OnOk result
        (GivesParams given.new (with_params (given_in given.old) number params)) }
{
    match given.insert(number, params) {
        Ok(_) => Ok(()),
        Err(_) => Err(NoMemory),
    }
}

/// A log, as it is asked for.
fn log_of(alloc: Global, wanted: bool) -> Log
    ensures wanted { result.wanted ≡ wanted }
    ensures empty { IsTrue wanted → result.happened ≡ [] }
{
    if wanted {
        Log::open(alloc)
    } else {
        Log::silent(alloc)
    }
}

impl RunWithNames {
    /// The run of no call yet.
    pub(crate) fn open(
        alloc: Global,
        cpus: u32,
        limit: u64,
        wanted: bool,
    ) -> Result<RunWithNames, NoMemory>
        requires cpus { (0 < cpus) × (cpus ≤ 64) }
        requires limit { IsLimit limit }
        ensures state { IfOk result (λ r. r.state ≡ empty_domain cpus limit) }
        ensures names { IfOk result (λ r. MapGives r.names no_names) }
        ensures given { IfOk result (λ r. GivesParams r.given no_params) }
        ensures wanted { IfOk result (λ r. r.log.wanted ≡ wanted) }
        ensures unlogged { IfOk result (λ r. IsTrue wanted → r.log.happened ≡ []) }
    {
        match State::open(alloc, cpus, limit) {
            Ok(state) => Ok(RunWithNames {
                state,
                names: IndexMap::new(alloc),
                given: IndexMap::new(alloc),
                log: log_of(alloc, wanted),
            }),
            Err(NoMemory) => Err(NoMemory),
        }
    }

    /// Keeps the parameters of a task, where the log is wanted.
    fn keep_params(&mut self, number: u32, params: Params) -> Result<(), NoMemory>
        ensures state { self.new.state ≡ self.old.state }
        ensures names { self.new.names ≡ self.old.names }
        ensures given { OnOk result (GivesParams self.new.given (if self.old.log.wanted
            then with_params (given_in self.old.given) number params
            else given_in self.old.given)) }
        ensures log { self.new.log ≡ self.old.log }
    {
        if self.log.is_wanted() {
            put_params(&mut self.given, number, params)?;
        }
        Ok(())
    }

    /// Keeps the name of a task that is admitted, and its parameters where the log is wanted.
    fn know(&mut self, number: u32, text: String, params: Params) -> Result<(), NoMemory>
        ensures state { self.new.state ≡ self.old.state }
        ensures names { OnOk result (MapGives self.new.names
            (with_name (name_of_task self.old.names) number (string_bytes text))) }
        ensures given { OnOk result (GivesParams self.new.given (if self.old.log.wanted
            then with_params (given_in self.old.given) number params
            else given_in self.old.given)) }
        ensures log { self.new.log ≡ self.old.log }
    {
        put_name(&mut self.names, number, text)?;
        self.keep_params(number, params)
    }

    /// Admits a task; its name and its parameters are kept where it is admitted.
    fn admit(
        &mut self,
        alloc: Global,
        number: u32,
        name: Name,
        params: Params,
        delay: u64,
        mut script: Script,
    ) -> Result<(), NoMemory>
        requires number { IsTaskNumber number }
        requires delay { delay ≤ max_script_number }
        requires named { AdmittedHaveNames self.old.state self.old.names }
        ensures state { let call = Call.Admit number name params delay script in
            OnOk result (self.new.state ≡ after_call self.old.state call) }
        ensures names { let call = Call.Admit number name params delay script in
            OnOk result (MapGives self.new.names
            (names_after self.old.state call (name_of_task self.old.names))) }
        ensures given { let call = Call.Admit number name params delay script in
            OnOk result (GivesParams self.new.given (if self.old.log.wanted
            then params_after self.old.state call (given_in self.old.given)
            else given_in self.old.given)) }
        ensures named { OnOk result (AdmittedHaveNames self.new.state self.new.names) }
        ensures time { OnOk result (self.new.state.time ≡ self.old.state.time) }
        ensures log { self.new.log ≡ self.old.log }
    {
        // A task that is refused changes nothing, and nothing is kept of it.
        if !lay_out_if_admitted(&self.state, number, &params, &mut script) {
            return Ok(());
        }
        let text = match text_of(alloc, &name) {
            Ok(text) => text,
            Err(error) => {
                drop(script);
                drop(name);
                return Err(error);
            }
        };
        match self.state.admit(number, name, params, delay, script) {
            Ok(()) => self.know(number, text, params),
            Err(_) => Ok(()),
        }
    }

    /// Changes the parameters of a task; they are kept where they are changed.
    fn regrade(&mut self, number: u32, params: Params, word: Option<u64>) -> Result<(), NoMemory>
        ensures state { OnOk result
            (self.new.state ≡ after_call self.old.state (Call.Regrade number params word)) }
        ensures names { self.new.names ≡ self.old.names }
        ensures given { let call = Call.Regrade number params word in
            OnOk result (GivesParams self.new.given (if self.old.log.wanted
            then params_after self.old.state call (given_in self.old.given)
            else given_in self.old.given)) }
        ensures log { self.new.log ≡ self.old.log }
    {
        match self.state.regrade(number, params, word) {
            Reply::Changed => self.keep_params(number, params),
            _ => Ok(()),
        }
    }

    /// Ends a task; the log records that its job is cut.
    fn leave(&mut self, number: u32) -> Result<(), NoMemory>
        ensures state { OnOk result
            (self.new.state ≡ after_call self.old.state (Call.Leave number)) }
        ensures names { self.new.names ≡ self.old.names }
        ensures given { self.new.given ≡ self.old.given }
        ensures logged { OnOk result (HasLogged self.old.log
            (logged_by_call self.old.state (Call.Leave number)) self.new.log) }
    {
        self.log.make_room(1)?;
        self.state.leave_logged(number, &mut self.log);
        Ok(())
    }

    /// Takes a task off the list; the log records that its job is cut.
    fn depart(&mut self, number: u32) -> Result<(), NoMemory>
        ensures state { OnOk result
            (self.new.state ≡ after_call self.old.state (Call.Depart number)) }
        ensures names { self.new.names ≡ self.old.names }
        ensures given { self.new.given ≡ self.old.given }
        ensures logged { OnOk result (HasLogged self.old.log
            (logged_by_call self.old.state (Call.Depart number)) self.new.log) }
    {
        self.log.make_room(1)?;
        self.state.depart_logged(number, &mut self.log);
        Ok(())
    }

    /// Makes a call; the log records what it logs.
    #[inline(always)]
    pub(crate) fn make(&mut self, alloc: Global, call: Call) -> Result<(), NoMemory>
        requires call { IsCall call }
        requires early { self.old.state.time + max_advance ≤ clock_end }
        requires named { AdmittedHaveNames self.old.state self.old.names }
        ensures state { OnOk result (self.new.state ≡ after_call self.old.state call) }
        ensures names { OnOk result (MapGives self.new.names
            (names_after self.old.state call (name_of_task self.old.names))) }
        ensures given { OnOk result (GivesParams self.new.given (if self.old.log.wanted
            then params_after self.old.state call (given_in self.old.given)
            else given_in self.old.given)) }
        ensures logged { OnOk result
            (HasLogged self.old.log (logged_by_call self.old.state call) self.new.log) }
        ensures named { OnOk result (AdmittedHaveNames self.new.state self.new.names) }
        ensures time { OnOk result (self.new.state.time ≤ self.old.state.time + max_advance) }
    {
        match call {
            Call::Admit {
                number,
                name,
                params,
                delay,
                script,
            } => self.admit(alloc, number, name, params, delay, script),
            Call::Advance { ticks } => self.advance(ticks),
            Call::Regrade {
                number,
                params,
                word,
            } => self.regrade(number, params, word),
            Call::Wake { number } => {
                self.state.wake(number);
                Ok(())
            }
            Call::Leave { number } => self.leave(number),
            Call::Limit { limit, word } => {
                self.state.set_limit(limit, word);
                Ok(())
            }
            Call::Depart { number } => self.depart(number),
            // As an admission without a delay.
            Call::Arrive {
                number,
                name,
                params,
                script,
            } => self.admit(alloc, number, name, params, 0, script),
        }
    }

    /// As `make`, of a call in little room. What is short is made in place. The block of another
    /// call is used again.
    pub(crate) fn make_kept(
        &mut self,
        alloc: Global,
        kept: Kept,
        reused: &mut Reused<'_>,
    ) -> Result<(), NoMemory>
        requires call { IsCall (call_kept kept) }
        requires early { self.old.state.time + max_advance ≤ clock_end }
        requires named { AdmittedHaveNames self.old.state self.old.names }
        ensures state { OnOk result (self.new.state ≡ after_call self.old.state (call_kept kept)) }
        ensures names { OnOk result (MapGives self.new.names
            (names_after self.old.state (call_kept kept) (name_of_task self.old.names))) }
        ensures given { OnOk result (GivesParams self.new.given (if self.old.log.wanted
            then params_after self.old.state (call_kept kept) (given_in self.old.given)
            else given_in self.old.given)) }
        ensures logged { OnOk result
            (HasLogged self.old.log (logged_by_call self.old.state (call_kept kept)) self.new.log) }
        ensures named { OnOk result (AdmittedHaveNames self.new.state self.new.names) }
        ensures time { OnOk result (self.new.state.time ≤ self.old.state.time + max_advance) }
    {
        match kept {
            Kept::Wake { number } => {
                self.state.wake(number);
                Ok(())
            }
            Kept::Leave { number } => self.leave(number),
            Kept::Depart { number } => self.depart(number),
            Kept::Advance { ticks } => self.advance(ticks),
            long => self.make(alloc, reused.into_call(long)),
        }
    }

    /// Makes so many ticks.
    fn advance(&mut self, ticks: u64) -> Result<(), NoMemory>
        requires early { self.old.state.time + ticks ≤ clock_end }
        ensures state { OnOk result (self.new.state ≡ ticked_by ticks self.old.state) }
        ensures time { OnOk result (self.new.state.time ≡ self.old.state.time + ticks) }
        ensures used { OnOk result (self.new.state.used ≡ self.old.state.used) }
        ensures names { self.new.names ≡ self.old.names }
        ensures given { self.new.given ≡ self.old.given }
        ensures logged { OnOk result
            (HasLogged self.old.log (logged_by_ticks ticks self.old.state) self.new.log) }
    {
        let done = jump_run::advance_logged(&mut self.state, ticks, &mut self.log);
        if done.ticks < ticks {
            return Err(NoMemory);
        }
        Ok(())
    }
}

/// Puts down the name that an entry gives: that of an admission, or an arrival, that was granted.
fn put_given(
    alloc: Global,
    names: &mut IndexMap<u32, String>,
    entry: &Entry,
) -> Result<(), NoMemory>
    ensures ok { OnOk result
        (MapGives names.new (names_given_by entry.now (name_of_task names.old))) }
{
    match (&entry.call, &entry.reply) {
        (
            Call::Admit { number, name, .. } | Call::Arrive { number, name, .. },
            Some(Reply::Admitted),
        ) => put_name(names, *number, text_of(alloc, name)?),
        _ => Ok(()),
    }
}

/// The names that entries give, by number.
pub(crate) fn names_given(
    alloc: Global,
    entries: &[Entry],
) -> Result<IndexMap<u32, String>, NoMemory>
    ensures names { IfOk result (λ names. MapGives names (given_by_all entries.now no_names)) }
{
    let mut names = IndexMap::new(alloc);
    for entry in entries {
        put_given(alloc, &mut names, entry)?;
    }
    Ok(names)
}

/// Puts down the parameters that an entry gives: those of an admission or an arrival that was
/// granted, or of a change that was.
fn put_given_params(given: &mut IndexMap<u32, Params>, entry: &Entry) -> Result<(), NoMemory>
    ensures ok { OnOk result
        (GivesParams given.new (params_given_by entry.now (given_in given.old))) }
{
    match (&entry.call, &entry.reply) {
        (
            Call::Admit { number, params, .. } | Call::Arrive { number, params, .. },
            Some(Reply::Admitted),
        )
        | (Call::Regrade { number, params, .. }, Some(Reply::Changed)) => {
            put_params(given, *number, *params)
        }
        _ => Ok(()),
    }
}

/// The parameters that entries leave, by number.
fn params_given(alloc: Global, entries: &[Entry]) -> Result<IndexMap<u32, Params>, NoMemory>
    ensures given { IfOk result (λ given.
        GivesParams given (params_given_by_all entries.now no_params)) }
{
    let mut given = IndexMap::new(alloc);
    for entry in entries {
        put_given_params(&mut given, entry)?;
    }
    Ok(given)
}

/// The names of the tasks of a history, by number, as its replies tell them.
pub(crate) fn names_of(alloc: Global, history: &Section) -> Result<IndexMap<u32, String>, NoMemory>
    requires { IsLegal history.now.cpus history.now.limit history.now.entries }
    ensures { IfOk result (λ names. name_of_task names ≡ names_in history.now) }
{
    names_given(alloc, &history.entries)
}

/// The parameters of the tasks of a history at its end, by number, as its replies tell them.
pub(crate) fn params_of(alloc: Global, history: &Section) -> Result<IndexMap<u32, Params>, NoMemory>
    requires { IsLegal history.now.cpus history.now.limit history.now.entries }
    ensures { IfOk result (λ given. given_in given ≡ params_in history.now) }
{
    params_given(alloc, &history.entries)
}
