//! What the clauses of a domain do not say. What comes of calls in worked rows stands in
//! `specs/examples` as equations, and the built program replays those rows.

mod room;

use domain_run::Switch;

#[test]
fn a_switch_is_small(rt: HostRuntime) {
    assert!(rt; std::mem::size_of::<Switch>() <= 16);
}
