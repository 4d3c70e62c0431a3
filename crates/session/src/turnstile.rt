/// Is called round each admission of a scenario, by the client that makes it.
pub trait Turnstile: Sync {
    /// Before a client's admission: the client's number, from 1, and how many admissions it made
    /// before, from 0.
    fn before(&self, client: u32, seq: usize);
    /// After it, with the same numbers.
    fn after(&self, client: u32, seq: usize);
}

/// A turnstile that lets everybody pass at once.
#[derive(Clone, Copy)]
pub struct AllPass;

impl Turnstile for AllPass {
    fn before(&self, _client: u32, _seq: usize) {}

    fn after(&self, _client: u32, _seq: usize) {}
}
