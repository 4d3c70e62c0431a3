//! Pieces of a list: where each begins, and the work on one.

ghost use Rattle.std.specs.Prelude.{◌≡◌, ◌<◌, ◌≤◌, All, map};
ghost use Rattle.tick_split.specs.Pieces.{piece_start};

use crate::turn::Turn;
use crate::work::Work;

/// Where piece k of so many pieces of a list of this length begins.
pub(crate) fn start_of(k: usize, pieces: usize, len: usize) -> usize
    requires some { 0 < pieces }
    requires within { k ≤ pieces }
    ensures value { result ≡ piece_start k pieces len }
    ensures within { result ≤ len }
{
    (k as u128 * len as u128 / pieces as u128) as usize
}

/// Works on a piece, with the turn's calls round it.
pub(crate) fn work_on<W: Work, G: Turn>(items: &mut [W], piece: usize, turn: &G)
    requires { All W.ready items.old }
    ensures { items.new ≡ map W.done items.old }
{
    turn.begin(piece);
    for item in items.iter_mut() {
        item.work();
    }
    turn.end(piece);
}
