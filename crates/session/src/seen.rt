ghost use Rattle.session.specs.Seen.{OneSeesAll};

/// What a call is said to have seen under a domain's lock is exact in a session of one client. It
/// does nothing; its contract says of the definition that the history seen is the client's pass
/// then.
pub fn one_client_sees_all()
    ensures law { OneSeesAll }
{}
