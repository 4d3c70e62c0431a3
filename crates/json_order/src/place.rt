use crate::lent::LentTree;
use crate::members::Members;
use crate::word::Word;

/// How far an escape in a string is read. Numbers are units of UTF-16, or the front digits of one.
#[derive(Clone, Copy)]
pub(crate) enum Escape {
    /// In no escape.
    Outside,
    /// Behind a backslash.
    Slash,
    /// Behind `\u` and no, one, two or three digits.
    Unit0,
    Unit1(u32),
    Unit2(u32),
    Unit3(u32),
    /// Behind a high surrogate, then behind the backslash and the `u` that have to follow, and
    /// behind their digits.
    High(u32),
    HighSlash(u32),
    Low0(u32),
    Low1(u32),
    Low2(u32, u32),
    Low3(u32, u32),
}

/// How far a number is read.
#[derive(Clone, Copy)]
pub(crate) enum Part {
    /// Behind the `-` in front.
    Minus,
    /// Behind a `0` in front.
    Zero,
    /// In digits that begin with another one.
    Whole,
    /// Behind the `.`.
    Dot,
    /// In the digits behind it.
    Fraction,
    /// Behind the `e` or `E`.
    Mark,
    /// Behind its sign.
    Sign,
    /// In the digits of the power.
    Exponent,
}

/// Where in a text the reader stands, apart from what is open around it.
#[derive(Drop)]
pub(crate) enum Place<'a> {
    /// Before a value.
    Value,
    /// Behind a `[`, before its first item or its `]`.
    FirstItem,
    /// Behind a value.
    Behind(LentTree<'a>),
    /// Behind a `{`, before its first key or its `}`.
    FirstKey,
    /// Behind a comma in an object, before a key.
    NextKey(Members<'a>),
    /// In a key behind these members, with its text so far.
    Key(Members<'a>, String, Escape),
    /// Behind a key, before its colon.
    Colon(Members<'a>, String),
    /// In a string, with its text so far.
    Text(String, Escape),
    /// In a number, with its text so far.
    Number(String, Part),
    /// In a word, of which so many letters are read.
    Word(Word, usize),
}

/// A list or an object around the place where the reader stands.
#[derive(Drop)]
pub(crate) enum Frame<'a> {
    /// A list with its items so far.
    List(Vec<LentTree<'a>>),
    /// An object with its members so far, and the key of the value that is being read.
    Object(Members<'a>, String),
}
