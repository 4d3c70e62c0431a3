//! What the answer needs of the listed tasks of a domain.

ghost use Rattle.std.specs.Prelude.{◌≡◌, ◌<◌, ◌≤◌, ◌^◌, nat_lt, length, option_map, slice_get};
ghost use Rattle.std.specs.List.{list_any};
ghost use Rattle.deadline_promise.specs.private.Listed as spec;

use attr_check::Params;
use domain_run::{State, TaskView};

#[derive(Clone, Copy)]
pub(crate) struct Listed {
    /// How many there are.
    pub count: u64,
    /// Whether one of them reclaims.
    pub reclaims: bool,
    /// Whether one of them has a deadline below its period.
    pub short: bool,
}

fn params_of(view: &TaskView) -> Params
    ensures { result ≡ view.now.params }
{
    view.params
}

fn params_at(state: &State, place: usize) -> Option<Params>
    ensures { result ≡ option_map (λ t. t.params) (slice_get state.now.tasks place) }
{
    // For the prover alone: a look into it brings what its type keeps.
    let _ = state.now();
    match state.number_at(place) {
        None => None,
        Some(number) => match state.view(number) {
            None => None,
            Some(view) => Some(params_of(&view)),
        },
    }
}

impl Listed {
    fn none() -> Listed
        ensures { result ≡ spec.none_listed }
    {
        Listed {
            count: 0,
            reclaims: false,
            short: false,
        }
    }

    // With one task more, if there is one.
    fn with(self, params: Option<Params>) -> Listed
        requires { self.count < 2 ^ 32 }
        ensures { result ≡ spec.with_if_any self params }
    {
        match params {
            None => self,
            Some(params) => Listed {
                count: self.count + 1,
                reclaims: self.reclaims || params.reclaim,
                short: self.short || params.deadline < params.period,
            },
        }
    }

    /// Of the tasks of a domain.
    pub fn of(state: &State) -> Listed
        ensures count { result.count ≡ length state.now.tasks }
        ensures few { result.count ≤ 256 }
        ensures reclaims { result.reclaims ≡ list_any (λ t. t.params.reclaim) state.now.tasks }
        ensures short { result.short
            ≡ list_any (λ t. nat_lt t.params.deadline t.params.period) state.now.tasks }
    {
        // For the prover alone: a look into it brings what its type keeps.
        let _ = state.now();
        let mut listed = Listed::none();
        for place in 0..256 {
            listed = listed.with(params_at(state, place));
        }
        listed
    }
}
