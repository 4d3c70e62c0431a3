/// What a test refuses. The key to mend lies in the tree, so that tests take no memory.
#[derive(Clone, Copy)]
pub(crate) enum Flaw<'a> {
    Unsupported(&'a str),
    Value(&'a str),
    Name,
    Policy,
    TooMany,
    Idle,
}
