/// What an opening bracket opens.
#[derive(Clone, Copy)]
pub(crate) enum Bracket {
    /// `[`: a list.
    Square,
    /// `{`: an object.
    Curly,
}
