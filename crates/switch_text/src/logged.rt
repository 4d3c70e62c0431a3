use domain_run::Happened;
use indexmap::IndexMap;

/// What happens to the tasks of one domain, as it is written. Names and what happens are borrowed.
#[derive(Clone, Copy)]
pub struct DomainEvents<'a> {
    /// The CPU of the machine that is the domain's CPU 0; with a task's own CPU it is below 512.
    pub base: u32,
    /// The name of each task to which something happens, by number: 1 to 15 bytes.
    pub names: &'a IndexMap<u32, String>,
    /// What happens, at most 2^50. All but the cuts, which have no line, rises strictly by time,
    /// which is below 2^42 us, at one time by the order of [`domain_run::What`], and then by CPU
    /// and number.
    pub happened: &'a [Happened],
}
