ghost use Rattle.call_book.specs.CoreSteps.{EntersAsTheCore, SettlesAsTheCore, MovesAsTheCore};

/// What a book does is what the pure core, `bw_world`, does with admitted tasks. It does nothing;
/// its contract says of the definitions, at whatever domain of the core that has the book's tasks,
/// under whatever ids of their tickets: that an admission is the core's Enter; that what an advance
/// settles of tasks that have ended is its Release and then its Give of each ticket; and that a
/// move fits its Move, whose Release and Enter are done in the two domains. The gate says the same
/// of what is done to the word ([`bw_gate::steps_are_the_cores`]).
pub fn books_are_the_cores()
    ensures enter { EntersAsTheCore }
    ensures settle { SettlesAsTheCore }
    ensures moves { MovesAsTheCore }
{}
