ghost use Rattle.std.specs.Prelude.{◌≡◌, ◌+◌, ◌<◌, [], ◌∷◌, MatchOption, IfSome};
ghost use Rattle.json_order.specs.Lent.{lent_json};
ghost use Rattle.json_order.specs.private.Places.{letters_from, value_of};

use crate::lent::LentTree;

/// A value that is a word.
#[derive(Clone, Copy)]
pub(crate) enum Word {
    Null,
    True,
    False,
}

impl Word {
    /// The letter behind the first few, none behind the last.
    pub(crate) fn letter(self, read: usize) -> Option<char>
        ensures letter { MatchOption result (letters_from self read
            ≡ []) (λ c. letters_from self read ≡ c ∷ letters_from self (read + 1)) }
        ensures short { IfSome result (λ _. read < 5) }
    {
        match (self, read) {
            (Word::Null, 0) => Some('n'),
            (Word::Null, 1) => Some('u'),
            (Word::Null, 2) => Some('l'),
            (Word::Null, 3) => Some('l'),
            (Word::True, 0) => Some('t'),
            (Word::True, 1) => Some('r'),
            (Word::True, 2) => Some('u'),
            (Word::True, 3) => Some('e'),
            (Word::False, 0) => Some('f'),
            (Word::False, 1) => Some('a'),
            (Word::False, 2) => Some('l'),
            (Word::False, 3) => Some('s'),
            (Word::False, 4) => Some('e'),
            _ => None,
        }
    }

    /// The letters behind the first.
    pub(crate) fn tail(self) -> &'static str
        ensures { result.now ≡ letters_from self 1 }
    {
        match self {
            Word::Null => "ull",
            Word::True => "rue",
            Word::False => "alse",
        }
    }

    pub(crate) fn tree<'a>(self) -> LentTree<'a>
        ensures { lent_json result ≡ value_of self }
    {
        match self {
            Word::Null => LentTree::Null,
            Word::True => LentTree::Bool(true),
            Word::False => LentTree::Bool(false),
        }
    }
}
