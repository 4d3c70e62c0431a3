//! What the clients of a session share: its gate, its domains after their locks, and a pool of
//! pieces.

ghost use Rattle.std.specs.Prelude.{◌≡◌, ◌==◌, map, Option, Some, None, Ok, Err, IfSome, IfOk, IfErr};
ghost use Rattle.std.specs.List.{list_all, list_any};
ghost use Rattle.std.specs.Option.{option_map};
ghost use Rattle.attr_check.specs.Accepted.{accepted};
ghost use Rattle.bw_gate.specs.Pieces.{BlankView};
ghost use Rattle.session.specs.SessionId.{IsDomainIndex};
ghost use Rattle.session.specs.Asks.{domain_with_cpus, same_cpus, blank_or_new, IsLawful, IsLastFound, IsHandAfter};
ghost use Rattle.session.specs.private.Entering.{IsOfTask};

use crate::books::Books;
use crate::names::Names;
use crate::pool::Pool;
use crate::refusal::Refusal;
use attr_check::{Params, check};
use bw_gate::{Blank, Gate};
use rtapp_scenario::TaskSpec;
use std::marker::Model;
use std::sync::Wait;

/// What all clients of a session share: one gate with the domains that it admits to, each after its
/// own lock, and a pool of pieces. Threads may borrow it side by side, each with a client of its
/// own, while the session itself, which keeps the clients that wait, stays with one. To a contract
/// it is its gate.
pub struct Shared<N: Names> {
    pub(crate) gate: Gate,
    pub(crate) cpu_sets: Vec<Vec<u32>>,
    pub(crate) books: Books<N>,
    pub(crate) pool: Pool<N>,
}

impl<N: Names> Model for Shared<N> {
    ghost use Rattle.std.specs.Prelude.{◌≡◌, map};
    ghost use Rattle.bw_gate.specs.Pieces.{GateId};
    ghost use Rattle.session.specs.SessionId.{IsSession};

    ghost Value = { GateId };

    ghost view = { λ h. h.gate };

    ghost invariant = { λ h. (h.gate ≡ N.id.gate)
        × (map (λ v. v.items) h.cpu_sets.items ≡ N.id.cpu_sets)
        × IsSession N.id };
}

/// What a client's call is made in: a [`Session`](crate::Session), or what threads share of it.
pub trait Shares<N: Names> {
    /// What all clients share.
    fn shares(&self) -> &Shared<N>;
}

impl<N: Names> Shares<N> for Shared<N> {
    fn shares(&self) -> &Shared<N> {
        self
    }
}

impl<N: Names> Shared<N> {
    /// The parameters and the domain of a task, or why it is admitted nowhere.
    pub(crate) fn goal_of(&self, task: &TaskSpec) -> Result<(Params, usize), Refusal>
        ensures checked { IfOk result (λ r. accepted task.now.attr ≡ Ok r.0) }
        ensures domain { IfOk result
            (λ r. domain_with_cpus N.id.cpu_sets task.now.cpus ≡ Some r.1) }
        ensures place { IfOk result (λ r. IsDomainIndex N.id r.1) }
        ensures refused { IfErr result (λ r. IsLawful N.id task.now (Err r)) }
        ensures nowhere { IfErr result IsOfTask }
        ensures unasked { (hand : Option BlankView) → IfErr result (λ r. IsLastFound hand (Err r)) }
        ensures same { (hand : Option BlankView)
            → IfErr result (λ r. IsHandAfter N.id task.now hand (Err r) hand) }
    {
        let params = match check(&task.attr) {
            Ok(params) => params,
            Err(kind) => return Err(Refusal::Einval(kind)),
        };
        match place_of(&self.cpu_sets, &task.cpus) {
            Some(place) => Ok((params, place)),
            None => Err(Refusal::Eperm),
        }
    }

    /// A piece of the pool, or else one that the domain of a place keeps. It is new to the client:
    /// it has found nothing.
    pub(crate) fn find_blank<R: Wait>(&self, rt: &R, place: usize) -> Option<Blank>
        ensures { IfSome result (λ b. b ≡ blank_or_new N.id.gate None) }
    {
        let blank = match self.pool.take(rt) {
            Some(blank) => blank,
            None => self.books.spare_at(rt, place)?,
        };
        Some(blank.renew(self.gate.desk()))
    }
}

/// The domain that has exactly the CPUs of a task, the first where it names none.
fn place_of(cpu_sets: &Vec<Vec<u32>>, cpus: &Option<Vec<u32>>) -> Option<usize>
    ensures { let sets = map (λ v. v.items) cpu_sets.now.items in
        result ≡ domain_with_cpus sets (option_map (λ v. v.items) cpus.now) }
{
    match cpus {
        None => Some(0),
        Some(cpus) => cpu_sets.iter().position(|set| are_same(cpus, set)),
    }
}

/// The same CPUs, in any order.
fn are_same(xs: &Vec<u32>, ys: &Vec<u32>) -> bool
    ensures { result ≡ same_cpus xs.now.items ys.now.items }
{
    all_in(xs, ys) && all_in(ys, xs)
}

fn all_in(xs: &Vec<u32>, ys: &Vec<u32>) -> bool
    ensures { result ≡ list_all (λ x. list_any (λ y. y == x) ys.now.items) xs.now.items }
{
    xs.iter().all(|x| is_in(*x, ys))
}

fn is_in(x: u32, ys: &Vec<u32>) -> bool
    ensures { result ≡ list_any (λ y. y == x) ys.now.items }
{
    ys.iter().any(|y| *y == x)
}
