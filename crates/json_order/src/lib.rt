//! JSON whose members keep their order, with the exact place of the first fault.
//!
//! Meets the definition "Spelling of JSON": which bytes spell which value (`specs/Grammar.antt`),
//! and what the fault of all other bytes is (`specs/Fault.antt`). To the crates above it promises
//! that [`read`] is Ok with a tree exactly where the input spells that tree, which is then the only
//! one, and that it else tells the definition's fault, kind and place; want of memory aside, which
//! has a kind of its own. [`read_lent`] promises the same of a tree whose texts lie in the input.
#![tactic(auto)]

mod copying;
mod escape;
mod fault;
mod key_order;
mod key_set;
mod lending;
mod lent;
mod members;
mod new_key;
mod number;
mod place;
mod plain;
mod quote;
mod reading;
mod step;
mod taking;
mod tree;
mod whole;
mod word;

pub use fault::{JsonFault, JsonKind};
pub use lending::lend;
pub use lent::{LentMember, LentText, LentTree};
pub use reading::{read, read_lent};
pub use tree::Tree;
