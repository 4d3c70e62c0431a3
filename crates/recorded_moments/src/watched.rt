//! Tasks to look for.

/// A task to look for in a recording: a thread of this name, or of this number if one is given.
#[derive(Clone, Copy)]
pub struct Watched<'a> {
    pub name: &'a [u8],
    pub pid: Option<u64>,
}
