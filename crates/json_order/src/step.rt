ghost use Rattle.std.specs.Prelude.{List, ◌≡◌, ◌<◌, ◌++◌, [], ◌∷◌, Ok, IsOk, IfOk, OnOk, IfErr, map, string_bytes};
ghost use Rattle.json_order.specs.declared.fault.JsonKind.TheVariants.{Memory};
ghost use Rattle.json_order.specs.declared.place.Escape.TheVariants.{Outside};
ghost use Rattle.json_order.specs.Fault.{strict};
ghost use Rattle.json_order.specs.Grammar as grammar;
ghost use Rattle.json_order.specs.Json.{number, string, array, no_items, object, no_members as nothing};
ghost use Rattle.json_order.specs.private.Machine.{Frame as StackFrame, IsFine, IsFinePlace, state, under_rules, step as machine_step, move, at_first_item, at_first_key, at_next_key, in_key, behind_key, in_string, in_number, in_word, value_move, next_move, behind_move};
ghost use Rattle.json_order.specs.private.Places.{code_place, frames_of, code_state, entries_of_tree, letters_from, value_of, OutcomeSays, IsInObject, IsMoving};
ghost use Rattle.json_order.specs.Lent.{lent_json};
ghost use Rattle.json_order.specs.Seen.{items_with, members_with};

use crate::fault::JsonKind;
use crate::lent::{LentMember, LentText, LentTree};
use crate::members::{Members, add_last_member, with_member};
use crate::number::{is_done, part_step};
use crate::place::{Escape, Frame, Part, Place};
use crate::quote::{Quote, quote_step};
use crate::word::Word;
use std::alloc::Global;
use std::mem;

/// How deep lists and objects nest; the outermost has depth 1.
pub(crate) const DEPTH: usize = 16;

/// White space (RFC 8259, section 2).
pub(crate) fn is_space(c: char) -> bool
    ensures { result ≡ grammar.is_space c }
{
    // Most characters are above the space.
    c <= ' ' && matches!(c, ' ' | '\t' | '\n' | '\r')
}

/// A number's text, of one ASCII character so far.
fn one(alloc: Global, c: char) -> Result<String, JsonKind>
    requires { c < 128 }
    ensures ok { IfOk result (λ s. string_bytes s ≡ c ∷ []) }
    ensures err { IfErr result (λ k. k ≡ Memory) }
{
    let mut text = String::with_capacity(alloc, 1)?;
    text.push(c)?;
    Ok(text)
}

/// The reader goes on there.
#[inline(always)]
fn go_to<'a>(place: &mut Place<'a>, next: Place<'a>) -> Result<(), JsonKind>
    ensures { IsOk result × (place.new ≡ next.entry) }
{
    *place = next;
    Ok(())
}

/// Behind the quote of a key.
#[inline(always)]
fn begin_key<'a>(alloc: Global, place: &mut Place<'a>, members: Members<'a>) -> Result<(), JsonKind>
    ensures ok { IsOk result }
    ensures place { code_place place.new
        ≡ in_key (entries_of_tree members.entry.list.items) [] Outside }
{
    go_to(
        place,
        Place::Key(members, String::new(alloc), Escape::Outside),
    )
}

/// A value's first character.
#[inline(always)]
fn value_step<'a>(
    alloc: Global,
    place: &mut Place<'a>,
    stack: &Vec<Frame<'a>>,
    c: char,
) -> Result<(), JsonKind>
    ensures ok { OnOk result (under_rules strict (value_move (frames_of stack.now.items) c)
        ≡ Ok (code_state place.new stack.now.items)) }
    ensures err { IfErr result
        (OutcomeSays (under_rules strict (value_move (frames_of stack.now.items) c))) }
{
    match c {
        'n' => go_to(place, Place::Word(Word::Null, 1)),
        't' => go_to(place, Place::Word(Word::True, 1)),
        'f' => go_to(place, Place::Word(Word::False, 1)),
        '"' => go_to(place, Place::Text(String::new(alloc), Escape::Outside)),
        '-' => go_to(place, Place::Number(one(alloc, c)?, Part::Minus)),
        '0' => go_to(place, Place::Number(one(alloc, c)?, Part::Zero)),
        '1'..='9' => go_to(place, Place::Number(one(alloc, c)?, Part::Whole)),
        '[' if stack.len() < DEPTH => go_to(place, Place::FirstItem),
        '{' if stack.len() < DEPTH => go_to(place, Place::FirstKey),
        '[' | '{' => Err(JsonKind::Depth),
        _ => Err(JsonKind::Syntax),
    }
}

/// Adds a list's last item. Where it is the only one, room is taken for it alone.
fn add_last<'a>(items: &mut Vec<LentTree<'a>>, value: LentTree<'a>) -> Result<(), JsonKind>
    ensures ok { OnOk result (items.new.items ≡ items.old.items ++ value.entry ∷ []) }
    ensures err { IfErr result (λ k. k ≡ Memory) }
{
    if items.is_empty() {
        items.reserve_exact(1)?;
    }
    items.push(value)?;
    Ok(())
}

/// The object of these members.
pub(crate) fn object_of<'a>(list: Vec<LentMember<'a>>) -> LentTree<'a>
    ensures { lent_json result
        ≡ object (members_with (entries_of_tree list.entry.items) nothing) }
{
    LentTree::Object(list)
}

/// The object of these members and a last one.
#[inline(always)]
pub(crate) fn whole_object<'a>(
    members: Members<'a>,
    key: LentText<'a>,
    value: LentTree<'a>,
) -> Result<LentTree<'a>, JsonKind>
    ensures ok { IfOk result (λ t. lent_json t ≡ object (members_with
        (entries_of_tree (members.entry.list.items ++ (key.entry, value.entry) ∷ [])) nothing)) }
    ensures err { IfErr result (λ k. k ≡ Memory) }
{
    let Members { mut list, .. } = members;
    add_last_member(&mut list, key, value)?;
    Ok(object_of(list))
}

/// A comma behind a value: the list goes on, into which the value is put where it stands, or the
/// object does.
#[inline(always)]
fn push_item<'a>(
    place: &mut Place<'a>,
    stack: &mut Vec<Frame<'a>>,
    value: LentTree<'a>,
) -> Result<(), JsonKind>
    ensures ok { OnOk result (under_rules strict
        (next_move (lent_json value.entry) (frames_of stack.old.items) 44)
        ≡ Ok (code_state place.new stack.new.items)) }
    ensures err { IfErr result
        (OutcomeSays
        (under_rules strict (next_move (lent_json value.entry) (frames_of stack.old.items) 44))) }
{
    let open = stack.len();
    if open == 0 {
        return Err(JsonKind::Syntax);
    }
    match &mut stack[open - 1] {
        Frame::List(items) => {
            items.push(value)?;
            go_to(place, Place::Value)
        }
        Frame::Object(_, _) => push_member(place, stack, value),
    }
}

/// A comma behind the value of a member.
#[inline(always)]
fn push_member<'a>(
    place: &mut Place<'a>,
    stack: &mut Vec<Frame<'a>>,
    value: LentTree<'a>,
) -> Result<(), JsonKind>
    requires { IsInObject (frames_of stack.old.items) }
    ensures ok { OnOk result (under_rules strict
        (next_move (lent_json value.entry) (frames_of stack.old.items) 44)
        ≡ Ok (code_state place.new stack.new.items)) }
    ensures err { IfErr result
        (OutcomeSays
        (under_rules strict (next_move (lent_json value.entry) (frames_of stack.old.items) 44))) }
{
    match stack.pop() {
        Some(Frame::Object(members, key)) => {
            go_to(
                place,
                Place::NextKey(with_member(members, LentText::Copied(key), value)?),
            )
        }
        _ => unreachable!(),
    }
}

/// The list of these items and a last one.
#[inline(always)]
pub(crate) fn whole_list<'a>(
    mut items: Vec<LentTree<'a>>,
    value: LentTree<'a>,
) -> Result<LentTree<'a>, JsonKind>
    ensures ok { IfOk result (λ t. lent_json t ≡ array (items_with
        (map lent_json items.entry.items ++ lent_json value.entry ∷ []) no_items)) }
    ensures err { IfErr result (λ k. k ≡ Memory) }
{
    add_last(&mut items, value)?;
    Ok(LentTree::List(items))
}

/// Behind a value and its white space.
#[inline(always)]
fn next_step<'a>(
    place: &mut Place<'a>,
    stack: &mut Vec<Frame<'a>>,
    value: LentTree<'a>,
    c: char,
) -> Result<(), JsonKind>
    ensures ok { OnOk result (under_rules strict
        (next_move (lent_json value.entry) (frames_of stack.old.items) c)
        ≡ Ok (code_state place.new stack.new.items)) }
    ensures err { IfErr result
        (OutcomeSays
        (under_rules strict (next_move (lent_json value.entry) (frames_of stack.old.items) c))) }
{
    match c {
        ',' => push_item(place, stack, value),
        ']' => match stack.pop() {
            Some(Frame::List(items)) => go_to(place, Place::Behind(whole_list(items, value)?)),
            _ => Err(JsonKind::Syntax),
        },
        '}' => match stack.pop() {
            Some(Frame::Object(members, key)) => {
                go_to(
                    place,
                    Place::Behind(whole_object(members, LentText::Copied(key), value)?),
                )
            }
            _ => Err(JsonKind::Syntax),
        },
        _ => Err(JsonKind::Syntax),
    }
}

/// Behind a value.
fn behind_step<'a>(
    place: &mut Place<'a>,
    stack: &mut Vec<Frame<'a>>,
    value: LentTree<'a>,
    c: char,
) -> Result<(), JsonKind>
    ensures ok { OnOk result (under_rules strict
        (behind_move (lent_json value.entry) (frames_of stack.old.items) c)
        ≡ Ok (code_state place.new stack.new.items)) }
    ensures err { IfErr result
        (OutcomeSays
        (under_rules strict (behind_move (lent_json value.entry) (frames_of stack.old.items) c))) }
{
    if is_space(c) {
        return go_to(place, Place::Behind(value));
    }
    next_step(place, stack, value, c)
}

/// A list without items.
pub(crate) fn empty_list<'a>(alloc: Global) -> LentTree<'a>
    ensures { lent_json result ≡ array no_items }
{
    LentTree::List(Vec::new(alloc))
}

/// Behind a `[`.
fn first_item_step<'a>(
    alloc: Global,
    place: &mut Place<'a>,
    stack: &mut Vec<Frame<'a>>,
    c: char,
) -> Result<(), JsonKind>
    ensures ok { OnOk result (under_rules strict (move at_first_item (frames_of stack.old.items) c)
        ≡ Ok (code_state place.new stack.new.items)) }
    ensures err { IfErr result
        (OutcomeSays (under_rules strict (move at_first_item (frames_of stack.old.items) c))) }
{
    if is_space(c) {
        return go_to(place, Place::FirstItem);
    }
    if c == ']' {
        return go_to(place, Place::Behind(empty_list(alloc)));
    }
    stack.push(Frame::List(Vec::new(alloc)))?;
    value_step(alloc, place, stack, c)
}

/// An object without members.
pub(crate) fn empty_object<'a>(alloc: Global) -> LentTree<'a>
    ensures { lent_json result ≡ object nothing }
{
    object_of(Vec::new(alloc))
}

/// No members yet.
fn no_members<'a>(alloc: Global) -> Members<'a>
    ensures { result.list.items ≡ [] }
{
    Members::new(alloc)
}

/// Behind a `{`.
fn first_key_step<'a>(alloc: Global, place: &mut Place<'a>, c: char) -> Result<(), JsonKind>
    ensures ok { OnOk result ((fs : List StackFrame) → under_rules strict (move at_first_key fs c)
        ≡ Ok (state (code_place place.new) fs)) }
    ensures err { IfErr result (λ k. (fs : List StackFrame)
        → OutcomeSays (under_rules strict (move at_first_key fs c)) k) }
{
    match c {
        ' ' | '\t' | '\n' | '\r' => go_to(place, Place::FirstKey),
        '"' => begin_key(alloc, place, no_members(alloc)),
        '}' => go_to(place, Place::Behind(empty_object(alloc))),
        _ => Err(JsonKind::Syntax),
    }
}

/// Behind a comma in an object.
fn next_key_step<'a>(
    alloc: Global,
    place: &mut Place<'a>,
    members: Members<'a>,
    c: char,
) -> Result<(), JsonKind>
    ensures ok { OnOk result ((fs : List StackFrame)
        → under_rules strict (move (at_next_key (entries_of_tree members.entry.list.items)) fs c)
        ≡ Ok (state (code_place place.new) fs)) }
    ensures err { IfErr result (λ k. (fs : List StackFrame)
        → OutcomeSays (under_rules strict
        (move (at_next_key (entries_of_tree members.entry.list.items)) fs c)) k) }
{
    match c {
        ' ' | '\t' | '\n' | '\r' => go_to(place, Place::NextKey(members)),
        '"' => begin_key(alloc, place, members),
        _ => Err(JsonKind::Syntax),
    }
}

/// In a key.
#[inline(always)]
fn key_step<'a>(
    place: &mut Place<'a>,
    members: Members<'a>,
    mut text: String,
    mut escape: Escape,
    c: char,
) -> Result<(), JsonKind>
    requires fine { IsFine escape }
    ensures ok { OnOk result ((fs : List StackFrame)
        → under_rules strict (move (in_key (entries_of_tree members.entry.list.items)
        (string_bytes text) escape) fs c) ≡ Ok (state (code_place place.new) fs)) }
    ensures err { IfErr result (λ k. (fs : List StackFrame) → OutcomeSays (under_rules strict
        (move (in_key (entries_of_tree members.entry.list.items)
        (string_bytes text) escape) fs c)) k) }
{
    match quote_step(&mut text, &mut escape, c)? {
        Quote::Going => go_to(place, Place::Key(members, text, escape)),
        Quote::Closed => {
            if members.has(text.as_str()) {
                return Err(JsonKind::Duplicate);
            }
            *place = Place::Colon(members, text);
            Ok(())
        }
    }
}

/// Behind a key.
fn colon_step<'a>(
    place: &mut Place<'a>,
    stack: &mut Vec<Frame<'a>>,
    members: Members<'a>,
    key: String,
    c: char,
) -> Result<(), JsonKind>
    ensures ok { OnOk result
        (under_rules strict (move (behind_key (entries_of_tree members.entry.list.items)
        (string_bytes key)) (frames_of stack.old.items) c)
        ≡ Ok (code_state place.new stack.new.items)) }
    ensures err { IfErr result (OutcomeSays (under_rules strict (move (behind_key
        (entries_of_tree members.entry.list.items) (string_bytes key))
        (frames_of stack.old.items) c))) }
{
    match c {
        ' ' | '\t' | '\n' | '\r' => go_to(place, Place::Colon(members, key)),
        ':' => {
            stack.push(Frame::Object(members, key))?;
            go_to(place, Place::Value)
        }
        _ => Err(JsonKind::Syntax),
    }
}

/// A string with this text.
fn string_of<'a>(text: String) -> LentTree<'a>
    ensures { lent_json result ≡ string (string_bytes text) }
{
    LentTree::Text(LentText::Copied(text))
}

/// In a string.
#[inline(always)]
fn text_step<'a>(
    place: &mut Place<'a>,
    mut text: String,
    mut escape: Escape,
    c: char,
) -> Result<(), JsonKind>
    requires fine { IsFine escape }
    ensures ok { OnOk result ((fs : List StackFrame)
        → under_rules strict (move (in_string (string_bytes text) escape) fs c)
        ≡ Ok (state (code_place place.new) fs)) }
    ensures err { IfErr result (λ k. (fs : List StackFrame)
        → OutcomeSays (under_rules strict (move (in_string (string_bytes text) escape) fs c)) k) }
{
    match quote_step(&mut text, &mut escape, c)? {
        Quote::Going => go_to(place, Place::Text(text, escape)),
        Quote::Closed => go_to(place, Place::Behind(string_of(text))),
    }
}

/// A number with this text.
pub(crate) fn number_of<'a>(text: String) -> LentTree<'a>
    ensures { lent_json result ≡ number (string_bytes text) }
{
    LentTree::Number(LentText::Copied(text))
}

/// In a number, which ends where a character does not go on with it.
#[inline(always)]
fn number_step<'a>(
    place: &mut Place<'a>,
    stack: &mut Vec<Frame<'a>>,
    mut text: String,
    part: Part,
    c: char,
) -> Result<(), JsonKind>
    ensures ok { OnOk result (under_rules strict (move (in_number (string_bytes text) part)
        (frames_of stack.old.items) c) ≡ Ok (code_state place.new stack.new.items)) }
    ensures err { IfErr result (OutcomeSays
        (under_rules strict
        (move (in_number (string_bytes text) part) (frames_of stack.old.items) c))) }
{
    match part_step(part, c) {
        Some(next) => {
            text.push(c)?;
            go_to(place, Place::Number(text, next))
        }
        None => {
            if is_done(part) {
                return behind_step(place, stack, number_of(text), c);
            }
            Err(JsonKind::Syntax)
        }
    }
}

/// The value of a word.
pub(crate) fn word_of<'a>(word: Word) -> LentTree<'a>
    ensures { lent_json result ≡ value_of word }
{
    word.tree()
}

/// In a word.
fn word_step<'a>(
    place: &mut Place<'a>,
    stack: &mut Vec<Frame<'a>>,
    word: Word,
    read: usize,
    c: char,
) -> Result<(), JsonKind>
    ensures ok { OnOk result (under_rules strict (move (in_word (letters_from word read)
        (value_of word)) (frames_of stack.old.items) c)
        ≡ Ok (code_state place.new stack.new.items)) }
    ensures err { IfErr result (OutcomeSays (under_rules strict
        (move (in_word (letters_from word read) (value_of word)) (frames_of stack.old.items) c))) }
{
    match word.letter(read) {
        Some(letter) => {
            if c == letter {
                return go_to(place, Place::Word(word, read + 1));
            }
            Err(JsonKind::Syntax)
        }
        None => behind_step(place, stack, word_of(word), c),
    }
}

/// The same where the place holds what is read so far, which moves on.
#[inline(always)]
fn turn_moving<'a>(
    alloc: Global,
    place: &mut Place<'a>,
    stack: &mut Vec<Frame<'a>>,
    c: char,
) -> Result<(), JsonKind>
    requires moving { IsMoving place.old }
    requires fine { IsFinePlace (code_place place.old) }
    ensures ok { OnOk result (machine_step strict (code_state place.old stack.old.items) c
        ≡ Ok (code_state place.new stack.new.items)) }
    ensures err { IfErr result
        (OutcomeSays (machine_step strict (code_state place.old stack.old.items) c)) }
{
    match mem::replace(place, Place::Value) {
        Place::Behind(value) => behind_step(place, stack, value, c),
        Place::NextKey(members) => next_key_step(alloc, place, members, c),
        Place::Key(members, text, escape) => key_step(place, members, text, escape, c),
        Place::Colon(members, key) => colon_step(place, stack, members, key, c),
        Place::Text(text, escape) => text_step(place, text, escape, c),
        Place::Number(text, part) => number_step(place, stack, text, part, c),
        Place::Value | Place::FirstItem | Place::FirstKey | Place::Word(_, _) => unreachable!(),
    }
}

/// The place and the stack once c follows. On an error they are left as they may be.
#[inline(always)]
pub(crate) fn turn<'a>(
    alloc: Global,
    place: &mut Place<'a>,
    stack: &mut Vec<Frame<'a>>,
    c: char,
) -> Result<(), JsonKind>
    requires fine { IsFinePlace (code_place place.old) }
    ensures ok { OnOk result (machine_step strict (code_state place.old stack.old.items) c
        ≡ Ok (code_state place.new stack.new.items)) }
    ensures err { IfErr result
        (OutcomeSays (machine_step strict (code_state place.old stack.old.items) c)) }
{
    match place {
        Place::Value => {
            if is_space(c) {
                return Ok(());
            }
            value_step(alloc, place, stack, c)
        }
        Place::FirstItem => first_item_step(alloc, place, stack, c),
        Place::FirstKey => first_key_step(alloc, place, c),
        Place::Word(word, read) => {
            let (word, read) = (*word, *read);
            word_step(place, stack, word, read, c)
        }
        Place::Behind(_)
        | Place::NextKey(_)
        | Place::Key(_, _, _)
        | Place::Colon(_, _)
        | Place::Text(_, _)
        | Place::Number(_, _) => turn_moving(alloc, place, stack, c),
    }
}
