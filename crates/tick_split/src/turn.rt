/// Is told of each piece by whoever works on it, in that worker's thread: `begin` before its first
/// element, `end` after its last. With w workers and s elements there are min(w, s) pieces,
/// numbered from 0; piece k has the elements from floor(k * s / pieces) up to and without floor((k
/// + 1) * s / pieces). Where a worker is not started, the pieces from its own on have no turn, so a
/// call that waits for another piece has to give up some time.
pub trait Turn: Sync {
    /// The worker is about to begin on this piece.
    fn begin(&self, piece: usize);

    /// The worker has ended this piece.
    fn end(&self, piece: usize);
}
