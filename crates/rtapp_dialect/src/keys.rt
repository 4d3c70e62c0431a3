//! The keys of the objects that are open.

ghost use Rattle.std.specs.Prelude.{◌≡◌, ◌<◌, ◌+◌, ◌^◌, [], count_by, length, OnOk};
ghost use Rattle.std.specs.Str.{bytes_eq};
ghost use Rattle.rtapp_dialect.specs.Repeats.{spelled_at, last_mark, earlier_in, ends_key, shuts, starts_bracket, start_after, keys_after, marks_after, key_span};

use crate::spot::{Last, Quote, is_closing, is_opening};
use std::alloc::{AllocError, Global};

/// Where a key is in the text, without its quotes.
#[derive(Clone, Copy)]
pub(crate) struct Span {
    /// The offset of its first byte.
    pub(crate) start: usize,
    /// The offset after its last byte: that of its closing quote.
    pub(crate) end: usize,
}

/// The keys of the objects that are open.
#[derive(Drop)]
pub(crate) struct Keys {
    /// Where the last string starts.
    pub(crate) start: usize,
    /// How many keys there were when each open bracket was opened, innermost last.
    pub(crate) marks: Vec<usize>,
    /// The keys, in the order of the text.
    pub(crate) keys: Vec<Span>,
}

/// The bytes between the quotes of a key.
pub(crate) fn spelled(text: &[u8], key: Span) -> &[u8]
    ensures { result.now ≡ spelled_at text.now key }
{
    let end = if key.end < text.len() {
        key.end
    } else {
        text.len()
    };
    if key.start < end {
        &text[key.start..end]
    } else {
        &[]
    }
}

/// How many keys there were when the innermost bracket was opened.
fn mark_in(marks: &[usize]) -> usize
    ensures { result ≡ last_mark marks.now }
{
    if marks.is_empty() {
        0
    } else {
        marks[marks.len() - 1]
    }
}

fn earlier_from(text: &[u8], keys: &[Span], key: Span) -> usize
    ensures { result ≡ count_by
        (λ k. bytes_eq (spelled_at text.now k) (spelled_at text.now key)) keys.now }
{
    let mut count = 0;
    for k in keys {
        if spelled(text, *k) == spelled(text, key) {
            count += 1;
        }
    }
    count
}

/// Whether the byte is the quote that ends a key.
pub(crate) fn is_end_of_key(quote: Quote, last: Last, byte: u8) -> bool
    ensures { result ≡ ends_key quote last byte }
{
    match (quote, last) {
        (Quote::Open, Last::Key) => byte == b'"',
        _ => false,
    }
}

fn is_shutting(quote: Quote, byte: u8) -> bool
    ensures { result ≡ shuts quote byte }
{
    match quote {
        Quote::Closed => is_closing(byte),
        Quote::Open => false,
        Quote::Escaped => false,
    }
}

fn is_starting(quote: Quote, byte: u8) -> bool
    ensures { result ≡ starts_bracket quote byte }
{
    match quote {
        Quote::Closed => is_opening(byte),
        Quote::Open => false,
        Quote::Escaped => false,
    }
}

fn next_start(quote: Quote, start: usize, at: usize, byte: u8) -> usize
    requires { at + 1 < 2 ^ 64 }
    ensures { result ≡ start_after quote start at byte }
{
    match quote {
        Quote::Closed => if byte == b'"' { at + 1 } else { start },
        Quote::Open => start,
        Quote::Escaped => start,
    }
}

fn turn_keys(
    keys: &mut Vec<Span>,
    ends: bool,
    shuts: bool,
    mark: usize,
    key: Span,
) -> Result<(), AllocError>
    ensures { OnOk result (keys.new.items ≡ keys_after ends shuts mark keys.old.items key) }
{
    if ends {
        keys.push(key)?;
    } else if shuts {
        keys.truncate(mark);
    }
    Ok(())
}

fn turn_marks(
    marks: &mut Vec<usize>,
    starts_bracket: bool,
    shuts: bool,
    count: usize,
) -> Result<(), AllocError>
    ensures { OnOk result
        (marks.new.items ≡ marks_after starts_bracket shuts count marks.old.items) }
{
    if starts_bracket {
        marks.push(count)?;
    } else if shuts {
        let _ = marks.pop();
    }
    Ok(())
}

impl Keys {
    /// Those of no text.
    pub(crate) fn new(alloc: Global) -> Keys
        ensures start { result.start ≡ 0 }
        ensures marks { result.marks.items ≡ [] }
        ensures keys { result.keys.items ≡ [] }
    {
        Keys {
            start: 0,
            marks: Vec::new(alloc),
            keys: Vec::new(alloc),
        }
    }

    /// How many keys of the innermost object are spelled as the string that ends at a place.
    pub(crate) fn earlier(&self, text: &[u8], at: usize) -> usize
        ensures { result ≡ earlier_in text.now self.now.marks.items self.now.keys.items
            (key_span self.now.start at) }
    {
        let mark = mark_in(&self.marks);
        let key = Span {
            start: self.start,
            end: at,
        };
        if mark < self.keys.len() {
            earlier_from(text, &self.keys[mark..], key)
        } else {
            0
        }
    }

    /// Goes on past the byte at a place.
    pub(crate) fn pass(
        &mut self,
        quote: Quote,
        last: Last,
        byte: u8,
        at: usize,
    ) -> Result<(), AllocError>
        requires { at + 1 < 2 ^ 64 }
        ensures start { OnOk result
            (self.new.start ≡ start_after quote self.old.start at byte) }
        ensures marks { OnOk result (self.new.marks.items ≡ marks_after (starts_bracket quote byte)
            (shuts quote byte) (length self.old.keys.items) self.old.marks.items) }
        ensures keys { OnOk result (self.new.keys.items
            ≡ keys_after (ends_key quote last byte) (shuts quote byte)
            (last_mark self.old.marks.items) self.old.keys.items (key_span self.old.start at)) }
    {
        let count = self.keys.len();
        let mark = mark_in(&self.marks);
        let key = Span {
            start: self.start,
            end: at,
        };
        let shuts = is_shutting(quote, byte);
        turn_keys(
            &mut self.keys,
            is_end_of_key(quote, last, byte),
            shuts,
            mark,
            key,
        )?;
        turn_marks(&mut self.marks, is_starting(quote, byte), shuts, count)?;
        self.start = next_start(quote, self.start, at, byte);
        Ok(())
    }
}
