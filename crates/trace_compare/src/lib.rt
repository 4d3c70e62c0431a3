//! A recorded trace beside the model's: runs, the shift of the clocks, and which runs match.
//!
//! Meets the definitions of a task's runs (`specs/Runs.antt`), of those of all tasks in both texts
//! (`specs/Tasks.antt`), of matches (`specs/Pairs.antt`) and of the shift of two clocks
//! (`specs/Clocks.antt`, `specs/Shift.antt`), with worked rows in `specs/Examples.antt`. To the
//! crate above it promises that [`runs_of_tasks`] gives exactly these runs, that [`find_shift`]
//! gives the shift under which most of them match, and that [`compare`] matches each run of the
//! model with the first recorded run that fits.
#![tactic(auto)]

mod clock;
mod collecting;
mod comparing;
mod differences;
mod gather;
mod nearest;
mod pairs;
mod run;
mod runs;
mod shift;
mod task;
mod times;

pub use clock::{ClockShift, NO_SHIFT, TIME_LIMIT};
pub use comparing::{Compared, compare};
pub use differences::{
    Apart, apart_in, apart_of, lies_inside, matched_of, missing_of, other_of, others_of,
};
pub use gather::runs_of_tasks;
pub use nearest::{first_start_of, last_end_of, nearest_of};
pub use pairs::Matching;
pub use recorded_text::{Names, Step};
pub use run::Run;
pub use shift::find_shift;
pub use task::TaskRuns;
pub use times::{cpu_time_of, taken_time_of};
