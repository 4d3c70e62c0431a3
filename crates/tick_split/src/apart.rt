//! A list in more than one piece, each worked on in a thread of its own.

ghost use Rattle.std.specs.Prelude.{◌≡◌, ◌<◌, ◌≤◌, ℕ, All, map, min, vec_len, slice_index_or, IfOk, IfSome, IsNone, IsSome};
ghost use Rattle.tick_split.specs.Pieces.{piece_of};

use crate::fault::StartFault;
use crate::pieces::{start_of, work_on};
use crate::turn::Turn;
use crate::work::{Work, Worked};
use std::alloc::Global;
use std::snapshot::Snapshot;
use std::sync::Wait;
use std::thread;
use std::thread::{PromisedHandle, Scope, Threads, join_promised};

/// More than one piece, and what workers are started with. Nothing else in this crate has it, so
/// who works on one piece starts no thread and takes no memory.
#[derive(Drop)]
pub(crate) struct Apart<'a, R> {
    rt: &'a R,
    alloc: Global,
    pieces: usize,
    ghost many: { 1 < pieces },
}

impl<'a, R> Apart<'a, R> {
    /// As many pieces as workers or elements, whichever are fewer; none where that is one piece or
    /// no piece.
    pub(crate) fn of(rt: &'a R, alloc: Global, workers: usize, len: usize) -> Option<Apart<'a, R>>
        ensures many { 1 < min workers len → IsSome result }
        ensures pieces { IfSome result (λ a. a.pieces ≡ min workers len) }
        ensures alone { min workers len ≤ 1 → IsNone result }
    {
        let pieces = workers.min(len);
        if pieces > 1 {
            return Some(Apart { rt, alloc, pieces });
        }
        None
    }
}

/// Piece k as a list of its own.
fn piece<W: Copy>(alloc: Global, items: &[W], k: usize, pieces: usize) -> Result<Vec<W>, StartFault>
    requires { k < pieces }
    ensures { IfOk result (λ v. v.items ≡ piece_of k pieces items.now) }
{
    let from = start_of(k, pieces, items.len());
    let to = start_of(k + 1, pieces, items.len());
    Ok(Vec::from_slice(alloc, &items[from..to])?)
}

/// Works on a piece that was moved here, and gives it back.
fn worked<W: Work, G: Turn>(mut items: Vec<W>, piece: usize, turn: &G) -> Vec<W>
    requires { All W.ready items.items }
    ensures { result.items ≡ map W.done items.items }
{
    work_on(items.as_mut_slice(), piece, turn);
    items
}

/// Starts a worker for each piece.
fn start_all<'s, E, W: Work + 's, G: Turn>(
    scope: &Scope<'s, E>,
    alloc: Global,
    items: &[W],
    pieces: usize,
    turn: &'s G,
) -> Result<Vec<PromisedHandle<Vec<W>, Worked<W>>>, StartFault>
    requires many { 1 < pieces }
    requires ready { All W.ready items.now }
    ensures len { IfOk result (λ v. vec_len v ≡ pieces) }
    ensures each { IfOk result (λ v. (k : ℕ) (d : _) → k < pieces
        → (slice_index_or v.items k d).promise.0.value.items ≡ piece_of k pieces items.now) }
{
    let mut workers = Vec::with_capacity(alloc, pieces)?;
    for k in 0..pieces {
        let part = piece(alloc, items, k, pieces)?;
        let promise = Worked(Snapshot::of(&part));
        let worker = move || -> Vec<W>
            requires { All W.ready part.items }
            ensures { result.items ≡ map W.done part.items }
        { worked(part, k, turn) };
        workers.push_reserved(scope.spawn_with(promise, worker)?);
    }
    Ok(workers)
}

impl<R: Threads + Wait> Apart<'_, R> {
    /// Works on copies of the pieces, each in a worker of its own, into which it is moved and from
    /// which it comes back with the join.
    pub(crate) fn work<W: Work, G: Turn>(
        self,
        items: &[W],
        turn: &G,
    ) -> Result<Vec<Vec<W>>, StartFault>
        requires { All W.ready items.now }
        ensures some { IfOk result (λ v. 0 < vec_len v) }
        ensures len { IfOk result (λ v. vec_len v ≡ self.entry.pieces) }
        ensures each { IfOk result (λ v. (k : ℕ) (d : _) → k < vec_len v
            → (slice_index_or v.items k d).items ≡ map W.done (piece_of k (vec_len v) items.now)) }
    {
        let (rt, alloc, pieces) = (self.rt, self.alloc, self.pieces);
        thread::scope(
            thread::scope_env(),
            rt,
            |scope| -> Result<Vec<Vec<W>>, StartFault>
                requires many { 1 < pieces }
                requires ready { All W.ready items.now }
                ensures len { IfOk result (λ v. vec_len v ≡ pieces) }
                ensures each { IfOk result (λ v. (k : ℕ) (d : _) → k < pieces
                    → (slice_index_or v.items k d).items
                    ≡ map W.done (piece_of k pieces items.entry.now)) }
            {
                let workers = start_all(scope, alloc, items, pieces, turn)?;
                Ok(join_promised(rt, workers)?)
            },
        )
    }
}
