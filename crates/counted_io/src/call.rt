/// A call of a reader or writer.
#[derive(Clone, Copy)]
pub struct Call {
    /// How many bytes there was room for, or how many there were to take.
    pub most: usize,
    /// How many it gave or took; none where it answered an error, of any kind.
    pub answer: Option<usize>,
}
