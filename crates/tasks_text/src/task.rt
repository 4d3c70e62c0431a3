//! A task to look for.

use attr_check::Params;
use task_script::Name;

/// A task to look for in a recording, and the parameters that it shall have.
#[derive(Drop)]
pub struct Task {
    /// Without `=`.
    pub name: Name,
    /// The number of the thread that it was, at most 10^9; none for the threads of its name.
    pub pid: Option<u64>,
    pub params: Params,
}
