//! A text that is read whole, value by value, as long as nothing stands there that ends the
//! reading. None says that something does, or that the text ends;
//! [`read_lent`](crate::read_lent) then goes through it character by character, and finds which
//! fault it is, and where.
ghost use Rattle.std.specs.Prelude.{ℕ, List, ◌≡◌, ◌⊎◌, ◌<◌, ◌+◌, [], ◌∷◌, ◌++◌, Ok, IfOk, IfErr, IfSome, encode_utf8};
ghost use Rattle.json_order.specs.Lent.{text_bytes, lent_json};
ghost use Rattle.json_order.specs.declared.fault.JsonKind.TheVariants.{Memory};
ghost use Rattle.json_order.specs.Fault.{strict};
ghost use Rattle.json_order.specs.Grammar.{IsSpaced};
ghost use Rattle.json_order.specs.Json.{string};
ghost use Rattle.json_order.specs.private.Machine.{Frame as StackFrame, state, step, at_value, at_first_item, at_first_key, behind as behind_value, in_number};
ghost use Rattle.json_order.specs.private.Entries.{keys_of};
ghost use Rattle.json_order.specs.private.Findings.{IsKeyFinding};
ghost use Rattle.json_order.specs.private.Places.{entries_of_tree, value_of};
ghost use Rattle.json_order.specs.private.Whole.{Crosses, IsQuoted, ReadsKey, ReadsNumber, ReadsValue, ReadsWord, IsWholeText};

use crate::fault::JsonKind;
use crate::lent::{LentText, LentTree};
use crate::members::Members;
use crate::new_key::NewKey;
use crate::number::is_done;
use crate::place::Part;
use crate::step::{DEPTH, empty_list, empty_object, is_space, whole_list, whole_object};
use crate::taking::{behind_char, number_run, text_of};
use crate::word::Word;
use std::alloc::Global;

/// What is read whole, and what stands behind it.
type Whole<'a, T> = Result<Option<(T, &'a str)>, JsonKind>;

/// What stands behind the white space in front.
#[inline(always)]
fn behind_space<'a>(rest: &'a str) -> &'a str
    ensures { IsSpaced rest.now result.now }
{
    let mut chars = rest.chars();
    'spaces: loop {
        let left = chars.as_str();
        let Some(c) = chars.next() else {
            return left;
        };
        if !is_space(c) {
            return left;
        }
    }
}

/// A string behind its first quote.
#[inline(always)]
fn quoted<'a>(alloc: Global, rest: &'a str) -> Whole<'a, LentText<'a>>
    ensures ok { IfOk result (λ o. IfSome o (λ t. IsQuoted (text_bytes t.0) rest.now t.1.now)) }
    ensures err { IfErr result (λ k. k ≡ Memory) }
{
    let (text, behind) = text_of(alloc, rest)?;
    match behind_char('"', behind) {
        Some(after) => Ok(Some((text, after))),
        None => Ok(None),
    }
}

/// A string as a value, behind its first quote.
#[inline(always)]
fn text<'a>(alloc: Global, rest: &'a str) -> Whole<'a, LentTree<'a>>
    ensures ok { IfOk result (λ o. IfSome o (λ t. (bytes : List ℕ) × (lent_json t.0 ≡ string bytes)
        × IsQuoted bytes rest.now t.1.now)) }
    ensures err { IfErr result (λ k. k ≡ Memory) }
{
    match quoted(alloc, rest)? {
        Some((text, after)) => Ok(Some((LentTree::Text(text), after))),
        None => Ok(None),
    }
}

/// How far a number is read behind its first character.
#[inline(always)]
fn first_part(c: char) -> Option<Part>
    ensures ascii { IfSome result (λ part. c < 128) }
    ensures begins { IfSome result (λ part. (fs : List StackFrame)
        → step strict (state at_value fs) c ≡ Ok (state (in_number (c ∷ []) part) fs)) }
{
    match c {
        '-' => Some(Part::Minus),
        '0' => Some(Part::Zero),
        '1'..='9' => Some(Part::Whole),
        _ => None,
    }
}

/// A number that begins with this character, which `behind` follows.
#[inline(always)]
fn number<'a>(c: char, rest: &'a str, behind: &str) -> Option<(LentTree<'a>, &'a str)>
    requires { rest.now ≡ encode_utf8 c ++ behind.now }
    ensures { IfSome result (λ t. ReadsNumber (lent_json t.0) rest.now t.1.now) }
{
    let Some(part) = first_part(c) else {
        return None;
    };
    let (len, read) = number_run(behind.as_bytes(), part);
    if !is_done(read) {
        return None;
    }
    let (text, after) = rest.split_at(len + 1);
    Some((LentTree::Number(LentText::InPlace(text)), after))
}

/// A word behind its first letter.
#[inline(always)]
fn word<'a>(word: Word, rest: &'a str) -> Option<(LentTree<'a>, &'a str)>
    ensures { IfSome result (λ t. (lent_json t.0 ≡ value_of word)
        × ReadsWord word rest.now t.1.now) }
{
    match rest.strip_prefix(word.tail()) {
        Some(after) => {
            let tree = word.tree();
            Some((tree, after))
        }
        None => None,
    }
}

/// A new key behind these members, its colon and the white space behind it.
#[inline(always)]
fn key<'a>(alloc: Global, members: &Members<'_>, rest: &'a str) -> Whole<'a, NewKey<'a>>
    ensures ok { IfOk result (λ o. IfSome o (λ t. ReadsKey (entries_of_tree members.now.list.items)
        (text_bytes t.0.text) rest.now t.1.now)) }
    ensures found { IfOk result (λ o. IfSome o (λ t. IsKeyFinding members.now.order
        (keys_of members.now.list.items) (text_bytes t.0.text) t.0.finding)) }
    ensures err { IfErr result (λ k. k ≡ Memory) }
{
    let Some(begun) = behind_char('"', rest) else {
        return Ok(None);
    };
    let Some((text, behind)) = quoted(alloc, begun)? else {
        return Ok(None);
    };
    let Some(after) = behind_char(':', behind_space(behind)) else {
        return Ok(None);
    };
    let Some(finding) = members.look_for(text.as_str()) else {
        return Ok(None);
    };
    Ok(Some((NewKey { text, finding }, behind_space(after))))
}

/// A list behind its `[`; so many more may be open in it.
#[cycle(value)]
#[inline(never)]
fn list<'a>(alloc: Global, rest: &'a str, depth: usize) -> Whole<'a, LentTree<'a>>
    ensures ok { IfOk result (λ o. IfSome o (λ t. Crosses (depth + 1) (state at_first_item)
        (state (behind_value (lent_json t.0))) rest.now t.1.now)) }
    ensures err { IfErr result (λ k. k ≡ Memory) }
{
    let mut left = behind_space(rest);
    if let Some(after) = behind_char(']', left) {
        return Ok(Some((empty_list(alloc), after)));
    }
    let mut items = Vec::new(alloc);
    'items: loop {
        let Some((item, behind)) = value(alloc, left, depth)? else {
            return Ok(None);
        };
        let end = behind_space(behind);
        if let Some(after) = behind_char(']', end) {
            return Ok(Some((whole_list(items, item)?, after)));
        }
        let Some(next) = behind_char(',', end) else {
            return Ok(None);
        };
        items.push(item)?;
        left = behind_space(next);
    }
}

/// An object behind its `{`; so many more may be open in it.
#[cycle(value)]
#[inline(never)]
fn object<'a>(alloc: Global, rest: &'a str, depth: usize) -> Whole<'a, LentTree<'a>>
    ensures ok { IfOk result (λ o. IfSome o (λ t. Crosses (depth + 1) (state at_first_key)
        (state (behind_value (lent_json t.0))) rest.now t.1.now)) }
    ensures err { IfErr result (λ k. k ≡ Memory) }
{
    let mut left = behind_space(rest);
    if let Some(after) = behind_char('}', left) {
        return Ok(Some((empty_object(alloc), after)));
    }
    let mut members = Members::new(alloc);
    'members: loop {
        let Some((name, begun)) = key(alloc, &members, left)? else {
            return Ok(None);
        };
        let Some((item, behind)) = value(alloc, begun, depth)? else {
            return Ok(None);
        };
        let end = behind_space(behind);
        if let Some(after) = behind_char('}', end) {
            return Ok(Some((whole_object(members, name.text, item)?, after)));
        }
        let Some(next) = behind_char(',', end) else {
            return Ok(None);
        };
        members.push(name, item)?;
        left = behind_space(next);
    }
}

/// A list or an object behind its bracket; so many more may be open in it. The result of a call is
/// in memory. It is taken apart here, and so the other results of [`value`] stay in registers.
#[cycle(value)]
#[inline(always)]
fn nested<'a>(alloc: Global, c: char, rest: &'a str, depth: usize) -> Whole<'a, LentTree<'a>>
    requires { (c ≡ 91) ⊎ (c ≡ 123) }
    ensures ok { IfOk result (λ o. IfSome o (λ t.
        ReadsValue (depth + 1) (lent_json t.0) (encode_utf8 c ++ rest.now) t.1.now)) }
    ensures err { IfErr result (λ k. k ≡ Memory) }
{
    let read = if c == '[' {
        list(alloc, rest, depth)?
    } else {
        object(alloc, rest, depth)?
    };
    match read {
        Some((tree, after)) => Ok(Some((tree, after))),
        None => Ok(None),
    }
}

/// A value; so many lists and objects may be open in it.
#[cycle(value)]
#[inline(always)]
fn value<'a>(alloc: Global, rest: &'a str, depth: usize) -> Whole<'a, LentTree<'a>>
    ensures ok { IfOk result (λ o. IfSome o (λ t.
        ReadsValue depth (lent_json t.0) rest.now t.1.now)) }
    ensures err { IfErr result (λ k. k ≡ Memory) }
{
    let mut chars = rest.chars();
    let Some(c) = chars.next() else {
        return Ok(None);
    };
    let after = chars.as_str();
    match c {
        '[' | '{' if depth > 0 => nested(alloc, c, after, depth - 1),
        '"' => text(alloc, after),
        'n' => Ok(word(Word::Null, after)),
        't' => Ok(word(Word::True, after)),
        'f' => Ok(word(Word::False, after)),
        _ => Ok(number(c, rest, after)),
    }
}

/// The value that a text spells, with white space around it.
pub(crate) fn whole_text<'a>(alloc: Global, text: &'a str) -> Result<Option<LentTree<'a>>, JsonKind>
    ensures ok { IfOk result (λ o. IfSome o (λ tree. IsWholeText text.now (lent_json tree))) }
    ensures err { IfErr result (λ k. k ≡ Memory) }
{
    let left = behind_space(text);
    match value(alloc, left, DEPTH)? {
        Some((tree, after)) => {
            let end = behind_space(after);
            if end.is_empty() {
                return Ok(Some(tree));
            }
            Ok(None)
        }
        None => Ok(None),
    }
}
