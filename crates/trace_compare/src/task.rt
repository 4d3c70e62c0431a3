use crate::run::Run;

/// The runs of one task, joined, in order of time.
#[derive(Drop)]
pub struct TaskRuns {
    /// Those of the model.
    pub model: Vec<Run>,
    /// Those of the recording.
    pub recorded: Vec<Run>,
}
