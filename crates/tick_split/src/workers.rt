//! Work on a list, by one worker or by several.

ghost use Rattle.std.specs.Prelude.{◌≡◌, ◌<◌, ℕ, All, map, length, slice_index_or, IsNone, IsOk, OnOk, OnErr};
ghost use Rattle.tick_split.specs.Pieces.{piece_of};

use crate::apart::Apart;
use crate::fault::StartFault;
use crate::pieces::{start_of, work_on};
use crate::turn::Turn;
use crate::work::Work;
use std::sync::Wait;
use std::thread::Threads;

/// Puts the pieces back to their places.
fn put_back<W: Work>(items: &mut [W], parts: &[Vec<W>])
    requires some { 0 < length parts.now }
    requires parts { (k : ℕ) (d : _) → k < length parts.now
        → (slice_index_or parts.now k d).items
        ≡ map W.done (piece_of k (length parts.now) items.old) }
    ensures { items.new ≡ map W.done items.old }
{
    let len = items.len();
    for (k, part) in parts.iter().enumerate() {
        let from = start_of(k, parts.len(), len);
        let to = start_of(k + 1, parts.len(), len);
        items[from..to].copy_from_slice(part.as_slice());
    }
}

/// Works on each element: in pieces, each by a worker that is started, or here in one piece, where
/// there is nothing to start one with and nothing to take memory from.
pub(crate) fn work_all<R: Threads + Wait, W: Work, G: Turn>(
    apart: Option<Apart<'_, R>>,
    items: &mut [W],
    turn: &G,
) -> Result<(), StartFault>
    requires ready { All W.ready items.old }
    ensures done { OnOk result (items.new ≡ map W.done items.old) }
    ensures as_before { OnErr result (items.new ≡ items.old) }
    ensures alone { IsNone apart.entry → IsOk result }
{
    if let Some(apart) = apart {
        let parts = apart.work(items, turn)?;
        put_back(items, parts.as_slice());
    } else if !items.is_empty() {
        work_on(items, 0, turn);
    }
    Ok(())
}
