ghost use Rattle.session.specs.SessionId.{SessionId, no_session};

use std::marker::Brand;

/// The names of one session: a type without data that stands for it, so that the type of a lock
/// tells which gate and which domain's book it keeps. Who opens a session picks them.
pub trait Names {
    /// The session's gate and its domains.
    ghost id: { SessionId };
}

/// The names of the session that a caller picks.
impl Names for Brand {
    ghost id = { no_session };
}
