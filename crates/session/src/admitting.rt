//! The admissions of a scenario: each client admits its own tasks in a thread of its own, and their
//! answers are put together.

ghost use Rattle.std.specs.Prelude.{◌≡◌, ◌<◌, ◌≤◌, ◌-◌, ◌%◌, ◌++◌, ◌∷◌, ℕ, List, [], length, map, All, IfOk, vec_len, vec_capacity, slice_index_or};
ghost use Rattle.session.specs.Admissions.{refused_in};
ghost use Rattle.session.specs.Admissions.{AllAsked};
ghost use Rattle.rtapp_scenario.specs.ScenarioView.{TaskSpecView};
ghost use Rattle.session.specs.private.Admitting.{SeatView, own_tasks, HasRoom, HaveSeats, AsksSeat, AreAsked, AreAnswers, IsUnion};

use crate::client::Client;
use crate::fault::{AdmitFault, NotStarted};
use crate::names::Names;
use crate::refusal::{Answer, Refusal};
use crate::session::Session;
use crate::shared::Shared;
use crate::turnstile::Turnstile;
use call_book::NoMemory;
use domain_run::Reply;
use rtapp_scenario::TaskSpec;
use std::alloc::Global;
use std::collections::VecDeque;
use std::marker::{Brand, Model, PhantomData};
use std::snapshot::Snapshot;
use std::sync::Wait;
use std::thread;
use std::thread::{Promise, PromisedHandle, Scope, Threads};

/// A client at its place among so many, with room for the answers to its own tasks. Task k is asked
/// for by the client at place (k - 1) mod `many`.
#[derive(Drop)]
struct Seat<N: Names> {
    client: Client<N>,
    place: usize,
    many: usize,
    answers: VecDeque<Answer>,
}

impl<N: Names> Model for Seat<N> {
    ghost use Rattle.std.specs.Prelude.{◌≡◌, ◌<◌, []};
    ghost use Rattle.std.specs.VecDeque.{deque_capacity};
    ghost use Rattle.session.specs.private.Admitting.{SeatView};

    ghost Value = { SeatView };

    ghost view = { λ s. record {
      client = s.client;
      place = s.place;
      many = s.many;
      room = deque_capacity s.answers;
    } };

    ghost invariant = { λ s. (0 < s.many) × (s.answers.items ≡ []) };
}

/// The tasks of one scenario: a type without data that stands for them, so that a thread's promise
/// can tell them. Who starts the threads picks them.
trait TasksBrand: Send + Sync {
    ghost tasks: { List TaskSpecView };
}

impl TasksBrand for Brand {
    ghost tasks = { [] };
}

/// A client that asked for its own tasks, and the answers, in their order.
#[derive(Drop)]
struct ClientAnswers<N: Names> {
    client: Client<N>,
    answers: VecDeque<Answer>,
}

/// The promise of a client's thread: it asks for its own tasks.
#[derive(Drop)]
struct AdmitPromise<N: Names, A: TasksBrand> {
    seat: Snapshot<Seat<N>>,
    of: PhantomData<A>,
}

impl<N: Names, A: TasksBrand> Promise<ClientAnswers<N>> for AdmitPromise<N, A> {
    ghost kept_by = { λ p r. AsksSeat N.id A.tasks p.seat.value r.client r.answers.items };
}

/// All clients that asked, and their answers.
#[derive(Drop)]
struct Joined<N: Names> {
    clients: Vec<Client<N>>,
    shares: Vec<VecDeque<Answer>>,
}

/// The place of the client that asks for a task, among so many.
fn place_of(task: &TaskSpec, many: usize) -> usize
    requires { 0 < many }
    ensures value { result ≡ (task.now.number - 1) % many }
    ensures within { result < many }
{
    (task.number as usize - 1) % many
}

/// How many of the tasks the client at a place asks for.
fn count_own(tasks: &[TaskSpec], place: usize, many: usize) -> usize
    requires { 0 < many }
    ensures { result ≡ length (own_tasks many place tasks.now) }
{
    let mut count = 0;
    for task in tasks {
        if place_of(task, many) == place {
            count += 1;
        }
    }
    count
}

/// Lets a client admit its own tasks, in their order.
fn admit_own<N: Names, T: Turnstile, R: Wait>(
    rt: &R,
    alloc: Global,
    shared: &Shared<N>,
    tasks: &[TaskSpec],
    turnstile: &T,
    seat: Seat<N>,
) -> ClientAnswers<N>
    requires { HasRoom tasks.now seat }
    ensures { AsksSeat N.id tasks.now seat result.client result.answers.items }
{
    let Seat {
        mut client,
        place,
        many,
        mut answers,
    } = seat;
    for task in tasks {
        if place_of(task, many) == place {
            let (number, seq) = (client.number(), answers.len());
            turnstile.before(number, seq);
            let answer = client.admit(rt, alloc, shared, task);
            answers.push_back_reserved(answer);
            turnstile.after(number, seq);
        }
    }
    ClientAnswers { client, answers }
}

/// Gives each client its seat, in their order, with room for its answers.
fn seat_all<N: Names>(
    alloc: Global,
    clients: Vec<Client<N>>,
    tasks: &[TaskSpec],
) -> Result<Vec<Seat<N>>, NoMemory>
    requires { 0 < length clients.items }
    ensures { IfOk result (λ v. HaveSeats tasks.now clients.items v.items) }
{
    let many = clients.len();
    let mut seats = Vec::with_capacity(alloc, many)?;
    for client in clients {
        let place = seats.len();
        let Ok(answers) = VecDeque::with_capacity(alloc, count_own(tasks, place, many)) else {
            // For the prover alone: dropped by a call, and not field by field.
            drop(client);
            return Err(NoMemory);
        };
        seats.push_reserved(Seat {
            client,
            place,
            many,
            answers,
        });
    }
    Ok(seats)
}

/// Starts the thread of a client.
fn start_one<
    's,
    E,
    N: Names + Send + Sync + 's,
    A: TasksBrand + 's,
    T: Turnstile + 's,
    R: Wait + Sync + 's,
>(
    scope: &Scope<'s, E>,
    rt: &'s R,
    alloc: Global,
    shared: &'s Shared<N>,
    tasks: &'s [TaskSpec],
    turnstile: &'s T,
    seat: Seat<N>,
) -> Result<PromisedHandle<ClientAnswers<N>, AdmitPromise<N, A>>, NotStarted>
    requires tasks { tasks.now ≡ A.tasks }
    requires room { HasRoom tasks.now seat }
    ensures { IfOk result (λ h. h.promise.seat.value ≡ seat) }
{
    let promise = AdmitPromise::<N, A> {
        seat: Snapshot::of(&seat),
        of: PhantomData,
    };
    let asking = move || -> ClientAnswers<N>
        requires { HasRoom tasks.now seat }
        ensures { AsksSeat N.id tasks.entry.now seat result.client result.answers.items }
    { admit_own(rt, alloc, shared, tasks, turnstile, seat) };
    match scope.spawn_with(promise, asking) {
        Ok(handle) => Ok(handle),
        Err(refused) => {
            // For the prover alone: dropped by a call, and not field by field.
            drop(refused);
            Err(NotStarted)
        }
    }
}

/// Starts a thread for each client, with room for their handles. Where one is not started, those
/// before it were.
fn start_all<
    's,
    E,
    N: Names + Send + Sync + 's,
    A: TasksBrand + 's,
    T: Turnstile + 's,
    R: Wait + Sync + 's,
>(
    scope: &Scope<'s, E>,
    rt: &'s R,
    alloc: Global,
    shared: &'s Shared<N>,
    tasks: &'s [TaskSpec],
    turnstile: &'s T,
    seats: Vec<Seat<N>>,
    mut handles: Vec<PromisedHandle<ClientAnswers<N>, AdmitPromise<N, A>>>,
) -> Result<Vec<PromisedHandle<ClientAnswers<N>, AdmitPromise<N, A>>>, NotStarted>
    requires tasks { tasks.now ≡ A.tasks }
    requires room { All (HasRoom tasks.now) seats.items }
    requires nobody { handles.items ≡ [] }
    requires enough { length seats.items ≤ vec_capacity handles }
    ensures len { IfOk result (λ v. vec_len v ≡ length seats.items) }
    ensures each { IfOk result (λ v. (k : ℕ) (d : _) (s : SeatView) → k < length seats.items
        → (slice_index_or v.items k d).promise.seat.value ≡ slice_index_or seats.items k s) }
{
    for seat in seats {
        handles.push_reserved(start_one(scope, rt, alloc, shared, tasks, turnstile, seat)?);
    }
    Ok(handles)
}

/// Joins the clients' threads, in their order. Takes no memory.
fn join_all<N: Names, A: TasksBrand, R: Threads>(
    rt: &R,
    handles: Vec<PromisedHandle<ClientAnswers<N>, AdmitPromise<N, A>>>,
    mut joined: Joined<N>,
) -> Joined<N>
    requires nobody { (joined.clients.items ≡ []) × (joined.shares.items ≡ []) }
    requires room { (length handles.items ≤ vec_capacity joined.clients)
        × (length handles.items ≤ vec_capacity joined.shares) }
    ensures { AreAsked N.id A.tasks (map (λ h. h.promise.seat.value) handles.items)
        result.clients.items (map (λ q. q.items) result.shares.items) }
{
    for handle in handles {
        let ClientAnswers { client, answers } = handle.join(rt);
        joined.clients.push_reserved(client);
        joined.shares.push_reserved(answers);
    }
    joined
}

/// Keeps the refusal in the answer to a task, where it is one.
fn note(refused: &mut Vec<(u32, Refusal)>, task: &TaskSpec, answer: Answer)
    requires { length refused.old.items < vec_capacity refused.old }
    ensures items { refused.new.items
        ≡ refused.old.items ++ refused_in (record { task = task.now; answer = answer } ∷ []) }
    ensures room { vec_capacity refused.new ≡ vec_capacity refused.old }
{
    match answer {
        Ok(Reply::Busy { seen }) => { refused.push_reserved((task.number, Refusal::Busy { seen })) }
        Ok(_) => {}
        Err(refusal) => refused.push_reserved((task.number, refusal)),
    }
}

/// Puts the clients' answers together: who was refused, in the order of tasks.
fn gather(
    tasks: &[TaskSpec],
    mut shares: Vec<VecDeque<Answer>>,
    mut refused: Vec<(u32, Refusal)>,
) -> Vec<(u32, Refusal)>
    requires some { 0 < length shares.items }
    requires each { (i : ℕ) (x : _) → i < length shares.items
        → AreAnswers (length shares.items) i tasks.now (slice_index_or shares.items i x).items }
    requires nobody { refused.items ≡ [] }
    requires room { length tasks.now ≤ vec_capacity refused }
    ensures { IsUnion tasks.now (map (λ q. q.items) shares.items) result.items }
{
    let many = shares.len();
    for task in tasks {
        if let Some(answer) = shares[place_of(task, many)].pop_front() {
            note(&mut refused, task, answer);
        }
    }
    refused
}

/// Lets the clients of these seats ask for their own tasks, each in a thread of its own.
fn ask_apart<N: Names + Send + Sync, A: TasksBrand, T: Turnstile, R: Threads + Wait + Sync>(
    rt: &R,
    alloc: Global,
    shared: &Shared<N>,
    tasks: &[TaskSpec],
    turnstile: &T,
    seats: Vec<Seat<N>>,
    handles: Vec<PromisedHandle<ClientAnswers<N>, AdmitPromise<N, A>>>,
    joined: Joined<N>,
) -> Result<Joined<N>, NotStarted>
    requires tasks { tasks.now ≡ A.tasks }
    requires seats { All (HasRoom tasks.now) seats.items }
    requires handles { (handles.items ≡ []) × (length seats.items ≤ vec_capacity handles) }
    requires nobody { (joined.clients.items ≡ []) × (joined.shares.items ≡ []) }
    requires room { (length seats.items ≤ vec_capacity joined.clients)
        × (length seats.items ≤ vec_capacity joined.shares) }
    ensures ok { IfOk result (λ j. AreAsked N.id tasks.now seats.items
        j.clients.items (map (λ q. q.items) j.shares.items)) }
{
    thread::scope(
        thread::scope_env(),
        rt,
        |scope| -> Result<Joined<N>, NotStarted>
            requires tasks { tasks.now ≡ A.tasks }
            requires seats { All (HasRoom tasks.now) seats.items }
            requires handles { (handles.items ≡ []) × (length seats.items ≤ vec_capacity handles) }
            requires nobody { (joined.clients.items ≡ []) × (joined.shares.items ≡ []) }
            requires room { (length seats.items ≤ vec_capacity joined.clients)
                × (length seats.items ≤ vec_capacity joined.shares) }
            ensures ok { IfOk result (λ j. AreAsked N.id tasks.entry.now seats.items
                j.clients.items (map (λ q. q.items) j.shares.items)) }
        {
            let started = start_all(scope, rt, alloc, shared, tasks, turnstile, seats, handles)?;
            Ok(join_all(rt, started, joined))
        },
    )
}

/// Lets the clients ask for their own tasks, and puts their answers together. All that this grows
/// is taken before a thread is started: room for the threads' handles, for who is back, for who is
/// refused, and each client in its seat, with room for its answers.
fn admit_tasks<N: Names + Send + Sync, A: TasksBrand, T: Turnstile, R: Threads + Wait + Sync>(
    rt: &R,
    alloc: Global,
    shared: &Shared<N>,
    clients: Vec<Client<N>>,
    tasks: &[TaskSpec],
    turnstile: &T,
) -> Result<(Vec<Client<N>>, Vec<(u32, Refusal)>), AdmitFault>
    requires tasks { tasks.now ≡ A.tasks }
    requires some { 0 < length clients.items }
    ensures { IfOk result (λ r. AllAsked N.id tasks.now clients.items r.0.items r.1.items) }
{
    let Ok(handles) = Vec::with_capacity(alloc, clients.len()) else {
        return Err(AdmitFault::Memory);
    };
    let Ok(back) = Vec::with_capacity(alloc, clients.len()) else {
        return Err(AdmitFault::Memory);
    };
    let Ok(shares) = Vec::with_capacity(alloc, clients.len()) else {
        return Err(AdmitFault::Memory);
    };
    let Ok(refused) = Vec::with_capacity(alloc, tasks.len()) else {
        return Err(AdmitFault::Memory);
    };
    let seats = seat_all(alloc, clients, tasks)?;
    let joined = Joined {
        clients: back,
        shares,
    };
    let Joined { clients, shares } = ask_apart::<N, A, T, R>(
        rt, alloc, shared, tasks, turnstile, seats, handles, joined,
    )?;
    Ok((clients, gather(tasks, shares, refused)))
}

/// Lets the clients admit a scenario's tasks, each client in a thread of its own, with the
/// turnstile round each admission: the client at place (k - 1) mod so many asks for task k, in the
/// order of k. The clients come back at their places, with who was refused, in the order of tasks.
///
/// # Errors
/// [`AdmitFault::Memory`] where a growth was refused: nothing was asked for. [`AdmitFault::Start`]
/// where the system started no thread for a client: those that were started have ended, and what
/// the books list stays there. The clients are gone, and no clause says what they left.
pub fn admit_all<N: Names + Send + Sync, T: Turnstile, R: Threads + Wait + Sync>(
    rt: &R,
    alloc: Global,
    session: &Session<N>,
    clients: Vec<Client<N>>,
    tasks: &[TaskSpec],
    turnstile: &T,
) -> Result<(Vec<Client<N>>, Vec<(u32, Refusal)>), AdmitFault>
    requires some { 0 < length clients.items }
    ensures ok { IfOk result (λ r. AllAsked N.id tasks.now clients.items r.0.items r.1.items) }
{
    admit_tasks::<N, Brand, T, R>(rt, alloc, &session.shared, clients, tasks, turnstile)
}
