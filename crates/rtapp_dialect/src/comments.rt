//! Comments made into white space.

ghost use Rattle.std.specs.Prelude.{◌≡◌, None, slice_index, IfErr, IfOk, OnOk};
ghost use Rattle.rtapp_dialect.specs.Comments.{within_after, byte_written, comment_place, is_unended, comments_blanked, unended_comment, IsCommentFault, blank};

use crate::fault::DialectFault;
use std::alloc::Global;

/// What a byte is part of, as the bytes before it tell.
#[derive(Clone, Copy)]
pub(crate) enum Within {
    /// Neither a string nor a comment.
    Outside,
    /// A string.
    Text,
    /// A string, after a backslash.
    Escape,
    /// A comment up to the end of its line.
    Line,
    /// The star that opens a comment.
    Opening,
    /// A comment up to its end.
    Block,
    /// The slash that ends a comment.
    Closing,
}

/// The byte at a place, or 0 after the last.
fn byte_at(text: &[u8], place: usize) -> u8
    ensures { result ≡ slice_index text.now place }
{
    if place < text.len() { text[place] } else { 0 }
}

/// What the next byte is part of.
fn next_within(within: Within, byte: u8, next: u8) -> Within
    ensures { result ≡ within_after within byte next }
{
    match within {
        Within::Outside => {
            if byte == b'"' {
                Within::Text
            } else if byte == b'/' && next == b'/' {
                Within::Line
            } else if byte == b'/' && next == b'*' {
                Within::Opening
            } else {
                Within::Outside
            }
        }
        Within::Text => {
            if byte == b'\\' {
                Within::Escape
            } else if byte == b'"' {
                Within::Outside
            } else {
                Within::Text
            }
        }
        Within::Escape => Within::Text,
        Within::Line => {
            if byte == b'\n' {
                Within::Outside
            } else {
                Within::Line
            }
        }
        Within::Opening => Within::Block,
        Within::Block => {
            if byte == b'*' && next == b'/' {
                Within::Closing
            } else {
                Within::Block
            }
        }
        Within::Closing => Within::Outside,
    }
}

/// The byte that is written in place of a byte.
fn written(within: Within, byte: u8, next: u8) -> u8
    ensures { result ≡ byte_written within byte next }
{
    match within {
        Within::Outside => {
            if byte == b'/' && (next == b'/' || next == b'*') {
                b' '
            } else {
                byte
            }
        }
        Within::Text => byte,
        Within::Escape => byte,
        Within::Line => blank_of(byte),
        Within::Opening => blank_of(byte),
        Within::Block => blank_of(byte),
        Within::Closing => blank_of(byte),
    }
}

/// A line feed, or a space.
fn blank_of(byte: u8) -> u8
    ensures { result ≡ blank byte }
{
    if byte == b'\n' { b'\n' } else { b' ' }
}

/// Where the last comment begins that began with this byte or before it.
fn comment_at(within: Within, byte: u8, at: usize, before: usize) -> usize
    ensures { result ≡ comment_place within byte at before }
{
    match within {
        Within::Outside => if byte == b'/' { at } else { before },
        _ => before,
    }
}

fn has_no_end(within: Within) -> bool
    ensures { result ≡ is_unended within }
{
    match within {
        Within::Opening => true,
        Within::Block => true,
        _ => false,
    }
}

/// The text with each comment made into spaces; a line feed within a comment stays. A comment is
/// `/*` up to the next `*/`, or `//` up to the end of its line. None begins within a string. Each
/// byte outside the comments stays as it is, at its offset.
///
/// # Errors
/// [`DialectFault::Comment`]: a comment `/*` has no end. [`DialectFault::Memory`]: a growth was
/// refused.
pub(crate) fn blank_comments(alloc: Global, text: &[u8]) -> Result<Vec<u8>, DialectFault>
    ensures value { IfOk result (λ v. v.items ≡ comments_blanked text.now) }
    ensures ended { OnOk result (unended_comment text.now ≡ None) }
    ensures fault { IfErr result (IsCommentFault text.now) }
{
    let mut blanked = Vec::with_capacity(alloc, text.len())?;
    let mut within = Within::Outside;
    let mut comment = 0;
    for (i, byte) in text.iter().enumerate() {
        let next = byte_at(text, i + 1);
        blanked.push(written(within, *byte, next))?;
        comment = comment_at(within, *byte, i, comment);
        within = next_within(within, *byte, next);
    }
    if has_no_end(within) {
        Err(DialectFault::Comment(comment))
    } else {
        Ok(blanked)
    }
}
