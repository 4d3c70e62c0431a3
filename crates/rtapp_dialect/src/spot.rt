//! Where a reader of a text without comments is.

ghost use Rattle.std.specs.Prelude.{◌≡◌, [], OnOk};
ghost use Rattle.rtapp_dialect.specs.Filling.{opens, closes, quote_after, last_after, inside_after, is_key_place, may_begin, lacks_value, string_part};
ghost use Rattle.json_order.specs.Grammar.{is_space};
ghost use Rattle.rtapp_dialect.specs.declared.spot.Quote.TheVariants.{Closed};
ghost use Rattle.rtapp_dialect.specs.declared.spot.Last.TheVariants.{Other};

use crate::bracket::Bracket;
use std::alloc::{AllocError, Global};

/// Whether the next byte is in a string.
#[derive(Clone, Copy)]
pub(crate) enum Quote {
    /// It is in none.
    Closed,
    /// It is in one.
    Open,
    /// It is in one, after a backslash.
    Escaped,
}

/// What the last part of the text was, white space aside.
#[derive(Clone, Copy)]
pub(crate) enum Last {
    /// `[` or `{`.
    Opening,
    /// A comma.
    Comma,
    /// A key.
    Key,
    /// Anything else, or nothing.
    Other,
}

/// Where a reader is, after some bytes.
#[derive(Drop)]
pub(crate) struct Spot {
    /// Whether the next byte is in a string.
    pub(crate) quote: Quote,
    /// What the last part was.
    pub(crate) last: Last,
    /// The brackets that are open, innermost last.
    pub(crate) inside: Vec<Bracket>,
}

/// Space, tab, line feed or carriage return.
pub(crate) fn is_white(byte: u8) -> bool
    ensures { result ≡ is_space byte }
{
    byte == b' ' || byte == b'\t' || byte == b'\n' || byte == b'\r'
}

/// `[` or `{`.
pub(crate) fn is_opening(byte: u8) -> bool
    ensures { result ≡ opens byte }
{
    byte == b'[' || byte == b'{'
}

/// `]` or `}`.
pub(crate) fn is_closing(byte: u8) -> bool
    ensures { result ≡ closes byte }
{
    byte == b']' || byte == b'}'
}

fn next_quote(quote: Quote, byte: u8) -> Quote
    ensures { result ≡ quote_after quote byte }
{
    match quote {
        Quote::Closed => {
            if byte == b'"' {
                Quote::Open
            } else {
                Quote::Closed
            }
        }
        Quote::Open => {
            if byte == b'\\' {
                Quote::Escaped
            } else if byte == b'"' {
                Quote::Closed
            } else {
                Quote::Open
            }
        }
        Quote::Escaped => Quote::Open,
    }
}

/// Whether a member may begin after this part.
pub(crate) fn begins_member(last: Last) -> bool
    ensures { result ≡ may_begin last }
{
    match last {
        Last::Opening => true,
        Last::Comma => true,
        Last::Key => false,
        Last::Other => false,
    }
}

fn string_of(is_key: bool) -> Last
    ensures { result ≡ string_part is_key }
{
    if is_key { Last::Key } else { Last::Other }
}

impl Spot {
    /// The start of a text.
    pub(crate) fn new(alloc: Global) -> Spot
        ensures quote { result.quote ≡ Closed }
        ensures last { result.last ≡ Other }
        ensures inside { result.inside.items ≡ [] }
    {
        Spot {
            quote: Quote::Closed,
            last: Last::Other,
            inside: Vec::new(alloc),
        }
    }

    /// Whether a string that begins here is a key.
    fn is_before_key(&self) -> bool
        ensures { result ≡ is_key_place self.now.last self.now.inside.items }
    {
        if !begins_member(self.last) {
            return false;
        }
        match self.inside.last() {
            Some(Bracket::Curly) => true,
            _ => false,
        }
    }

    /// Whether the byte follows a key whose value is left out.
    pub(crate) fn lacks_value(&self, byte: u8) -> bool
        ensures { result ≡ lacks_value self.now.quote self.now.last byte }
    {
        match (self.quote, self.last) {
            (Quote::Closed, Last::Key) => byte == b',' || byte == b'}',
            _ => false,
        }
    }

    /// What the last part is after this byte.
    fn next_last(&self, byte: u8) -> Last
        ensures { result ≡ last_after self.now.quote self.now.last self.now.inside.items byte }
    {
        match self.quote {
            Quote::Closed => {
                if is_white(byte) {
                    self.last
                } else if byte == b'"' {
                    string_of(self.is_before_key())
                } else if is_opening(byte) {
                    Last::Opening
                } else if byte == b',' {
                    Last::Comma
                } else {
                    Last::Other
                }
            }
            Quote::Open => self.last,
            Quote::Escaped => self.last,
        }
    }
}

/// Opens or closes a bracket.
fn turn_inside(inside: &mut Vec<Bracket>, quote: Quote, byte: u8) -> Result<(), AllocError>
    ensures { OnOk result (inside.new.items ≡ inside_after quote inside.old.items byte) }
{
    match quote {
        Quote::Closed => {
            if byte == b'[' {
                inside.push(Bracket::Square)?;
            } else if byte == b'{' {
                inside.push(Bracket::Curly)?;
            } else if is_closing(byte) {
                let _ = inside.pop();
            }
            Ok(())
        }
        Quote::Open => Ok(()),
        Quote::Escaped => Ok(()),
    }
}

impl Spot {
    /// Goes on past a byte.
    pub(crate) fn pass(&mut self, byte: u8) -> Result<(), AllocError>
        ensures quote { OnOk result (self.new.quote ≡ quote_after self.old.quote byte) }
        ensures last { OnOk result (self.new.last
            ≡ last_after self.old.quote self.old.last self.old.inside.items byte) }
        ensures inside { OnOk result (self.new.inside.items
            ≡ inside_after self.old.quote self.old.inside.items byte) }
    {
        let last = self.next_last(byte);
        turn_inside(&mut self.inside, self.quote, byte)?;
        self.last = last;
        self.quote = next_quote(self.quote, byte);
        Ok(())
    }
}
