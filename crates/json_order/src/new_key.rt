use crate::lent::LentText;

/// What was found out about a key that no member has. It is not looked for again when its member is
/// added.
#[derive(Clone, Copy)]
pub(crate) enum Finding {
    /// No more than that.
    Unknown,
    /// It follows the members in their order.
    Behind,
    /// It has this mark.
    Marked(u32),
}

/// A key that no member has.
#[derive(Drop)]
pub(crate) struct NewKey<'a> {
    pub(crate) text: LentText<'a>,
    pub(crate) finding: Finding,
}
