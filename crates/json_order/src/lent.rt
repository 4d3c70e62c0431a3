ghost use Rattle.std.specs.Prelude.{◌≡◌};
ghost use Rattle.json_order.specs.Lent.{text_bytes};

/// A text that lies in the input, or a copy of its own where the input spells it with escapes.
#[derive(Drop)]
pub enum LentText<'a> {
    /// It lies in the input.
    InPlace(&'a str),
    /// Its escapes are read.
    Copied(String),
}

impl LentText<'_> {
    /// The text itself.
    #[inline(always)]
    pub fn as_str(&self) -> &str
        ensures { result.now ≡ text_bytes self.now }
    {
        match self {
            LentText::InPlace(text) => text,
            LentText::Copied(text) => text.as_str(),
        }
    }
}

/// A JSON value as [`Tree`](crate::Tree) has it. Its texts lie in the input where they can, so
/// that mostly its lists and objects alone take memory.
#[derive(Drop)]
pub enum LentTree<'a> {
    /// `null`.
    Null,
    /// `true` or `false`.
    Bool(bool),
    /// A number, as its own text.
    Number(LentText<'a>),
    /// A string, its escapes read.
    Text(LentText<'a>),
    /// A list.
    List(Vec<LentTree<'a>>),
    /// An object: keys, their escapes read, and values. No key stands twice.
    Object(Vec<(LentText<'a>, LentTree<'a>)>),
}

/// A key and its value.
pub type LentMember<'a> = (LentText<'a>, LentTree<'a>);
