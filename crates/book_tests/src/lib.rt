//! The tests of bandwidth words, of their gate and of a domain's book, apart from them, so that the
//! gate proves each of those crates once.
#![tactic(auto)]

#[cfg(test)]
mod of_book;
#[cfg(test)]
mod of_gates;
#[cfg(test)]
mod of_worlds;
