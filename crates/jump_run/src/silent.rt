use tick_split::Turn;

/// A turn that does nothing.
#[derive(Clone, Copy)]
pub struct Silent;

impl Turn for Silent {
    fn begin(&self, _piece: usize) {}

    fn end(&self, _piece: usize) {}
}
