/// Bytes of a strict text that are not in the file.
#[derive(Clone, Copy, Debug)]
pub struct Insertion {
    /// The offset in the file of the byte before which they were inserted, from 0.
    pub at: usize,
    /// How many there are.
    pub len: usize,
}
