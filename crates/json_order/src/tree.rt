/// A JSON value (RFC 8259). Items and members keep the order of the text.
#[derive(Debug, Drop)]
pub enum Tree {
    /// `null`.
    Null,
    /// `true` or `false`.
    Bool(bool),
    /// A number, as its own text.
    Number(String),
    /// A string, its escapes read.
    Text(String),
    /// A list.
    List(Vec<Tree>),
    /// An object: keys, their escapes read, and values. No key stands twice.
    Object(Vec<(String, Tree)>),
}
