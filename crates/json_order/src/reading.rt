ghost use Rattle.std.specs.Prelude.{◌≡◌, ◌≢◌, [], Some, None, IfOk, OnOk, IfErr, IfSome, IfNone};
ghost use Rattle.json_order.specs.declared.fault.JsonKind.TheVariants.{Memory};
ghost use Rattle.json_order.specs.Fault.{strict, Spells, IsJsonFault};
ghost use Rattle.json_order.specs.Json.{Json};
ghost use Rattle.json_order.specs.private.AtOnce.{Stands};
ghost use Rattle.json_order.specs.private.Machine.{start, ended_value};
ghost use Rattle.json_order.specs.private.Places.{code_place, frames_of, code_state};
ghost use Rattle.json_order.specs.Lent.{lent_json};
ghost use Rattle.json_order.specs.Seen.{json_of};

use crate::copying::copy_of;
use crate::fault::{JsonFault, JsonKind};
use crate::lent::LentTree;
use crate::number::is_done;
use crate::place::{Frame, Place};
use crate::step::{DEPTH, number_of, turn, word_of};
use crate::tree::Tree;
use crate::whole::whole_text;
use std::alloc::Global;
use std::str;

/// Reads a JSON text (RFC 8259, narrower as the page on formats says: UTF-8 alone, at most 16 lists
/// and objects inside one another, no key twice in one object, no lone surrogate). The members of
/// an object keep the order of the text.
///
/// Memory is taken for the tree, and first for one whose texts lie in the input: [`read_lent`] says
/// what that costs.
///
/// An Err tells the kind and the place of the first fault; see [`JsonKind`] and [`JsonFault`]. Utf8
/// is tested first, over the whole input. Memory may come before any other fault.
pub fn read(alloc: Global, bytes: &[u8]) -> Result<Tree, JsonFault>
    // What is read is what the input spells,
    ensures found { IfOk result (λ tree. Spells strict bytes.now (json_of tree)) }
    // and it spells nothing else.
    ensures only { IfOk result (λ tree. (value : Json) → Spells strict bytes.now value → value
        ≡ json_of tree) }
    // What the input spells is read, unless memory runs out.
    ensures accepted { (value : Json) → Spells strict bytes.now value
        → IfErr result (λ fault. fault.kind ≡ Memory) }
    // Which fault it is, and where.
    ensures fault { IfErr result (λ fault. IsJsonFault bytes.now fault.kind fault.at) }
{
    match read_lent(alloc, bytes) {
        Ok(lent) => copied(alloc, &lent),
        Err(fault) => Err(fault),
    }
}

/// The same value, with texts of its own.
fn copied(alloc: Global, lent: &LentTree<'_>) -> Result<Tree, JsonFault>
    ensures ok { IfOk result (λ tree. json_of tree ≡ lent_json lent.now) }
    ensures err { IfErr result (λ fault. (fault.kind ≡ Memory) × (fault.at ≡ 0)) }
{
    match copy_of(alloc, lent) {
        Ok(tree) => Ok(tree),
        Err(_) => Err(fault_at(JsonKind::Memory, 0)),
    }
}

/// Reads a JSON text as [`read`] does, into a tree whose texts lie in the input, but for those that
/// it spells with escapes.
///
/// Memory is taken for lists and objects, and for texts with escapes. An open object of more than
/// 16 members whose keys neither rise nor fall takes some for a table of their numbers: 3 to 8
/// slots a member, of 8 bytes. If there is a fault, the input is read twice, and a stack of at most
/// 17 frames takes memory too. The first 16 keys of an object are compared one by one. The time is
/// linear in the input, but for keys that were chosen to share their slots in the table. The reader
/// keeps a copy of such keys, and they cost the logarithm of their number.
///
/// An Err tells the kind and the place of the first fault; see [`JsonKind`] and [`JsonFault`]. Utf8
/// is tested first, over the whole input. Memory may come before any other fault.
pub fn read_lent<'a>(alloc: Global, bytes: &'a [u8]) -> Result<LentTree<'a>, JsonFault>
    // What is read is what the input spells,
    ensures found { IfOk result (λ tree. Spells strict bytes.now (lent_json tree)) }
    // and it spells nothing else.
    ensures only { IfOk result (λ tree. (value : Json) → Spells strict bytes.now value → value
        ≡ lent_json tree) }
    // What the input spells is read, unless memory runs out.
    ensures accepted { (value : Json) → Spells strict bytes.now value
        → IfErr result (λ fault. fault.kind ≡ Memory) }
    // Which fault it is, and where.
    ensures fault { IfErr result (λ fault. IsJsonFault bytes.now fault.kind fault.at) }
{
    match str::from_utf8(bytes) {
        Ok(text) => read_text(alloc, text),
        Err(e) => Err(JsonFault {
            at: e.valid_up_to(),
            kind: JsonKind::Utf8,
        }),
    }
}

/// A fault at this place; want of memory has the place 0.
fn fault_at(kind: JsonKind, at: usize) -> JsonFault
    ensures kind { result.kind ≡ kind }
    ensures memory { kind ≡ Memory → result.at ≡ 0 }
    ensures other { kind ≢ Memory → result.at ≡ at }
{
    match kind {
        JsonKind::Memory => JsonFault { at: 0, kind },
        _ => JsonFault { at, kind },
    }
}

/// The value of a text that ends here, none where it may not.
fn value_at_end<'a>(place: Place<'a>, stack: &Vec<Frame<'a>>) -> Option<LentTree<'a>>
    ensures none { IfNone result
        (ended_value (code_place place.entry) (frames_of stack.now.items) ≡ None) }
    ensures some { IfSome result (λ tree.
        ended_value (code_place place.entry) (frames_of stack.now.items)
        ≡ Some (lent_json tree)) }
{
    if !stack.is_empty() {
        return None;
    }
    match place {
        Place::Behind(value) => Some(value),
        Place::Number(text, part) => {
            if is_done(part) {
                return Some(number_of(text));
            }
            None
        }
        Place::Word(word, read) => match word.letter(read) {
            Some(_) => None,
            None => Some(word_of(word)),
        },
        _ => None,
    }
}

/// Reads a text in UTF-8 from its start to its end: the place and the stack there. Both are lent,
/// so that a fault has nothing to let go of.
#[inline(always)]
fn read_through<'a>(
    alloc: Global,
    text: &str,
    place: &mut Place<'a>,
    stack: &mut Vec<Frame<'a>>,
) -> Result<(), JsonFault>
    requires start { code_state place.old stack.old.items ≡ start }
    ensures ok { OnOk result (Stands text.now (code_state place.new stack.new.items) []) }
    ensures fault { IfErr result (λ fault. IsJsonFault text.now fault.kind fault.at) }
{
    let mut chars = text.chars();
    while let Some(c) = chars.next() {
        let rest = chars.as_str();
        match turn(alloc, place, stack, c) {
            Ok(()) => {}
            Err(kind) => {
                let at = text.len() - rest.len() - c.len_utf8();
                return Err(fault_at(kind, at));
            }
        }
    }
    Ok(())
}

/// Reads a text in UTF-8 character by character.
fn read_slowly<'a>(alloc: Global, text: &'a str) -> Result<LentTree<'a>, JsonFault>
    ensures found { IfOk result (λ tree. Spells strict text.now (lent_json tree)) }
    ensures only { IfOk result (λ tree. (value : Json) → Spells strict text.now value → value
        ≡ lent_json tree) }
    ensures fault { IfErr result (λ fault. IsJsonFault text.now fault.kind fault.at) }
{
    let Ok(mut stack) = Vec::with_capacity(alloc, DEPTH + 1) else {
        return Err(fault_at(JsonKind::Memory, 0));
    };
    let mut place = Place::Value;
    if let Err(fault) = read_through(alloc, text, &mut place, &mut stack) {
        // One call each lets go of them.
        drop(place);
        drop(stack);
        return Err(fault);
    }
    match value_at_end(place, &stack) {
        Some(tree) => Ok(tree),
        None => Err(fault_at(JsonKind::End, text.len())),
    }
}

/// Reads a text in UTF-8 whole, or else character by character up to its fault.
fn read_text<'a>(alloc: Global, text: &'a str) -> Result<LentTree<'a>, JsonFault>
    ensures found { IfOk result (λ tree. Spells strict text.now (lent_json tree)) }
    ensures only { IfOk result (λ tree. (value : Json) → Spells strict text.now value → value
        ≡ lent_json tree) }
    ensures fault { IfErr result (λ fault. IsJsonFault text.now fault.kind fault.at) }
{
    let whole = match whole_text(alloc, text) {
        Ok(whole) => whole,
        Err(kind) => return Err(fault_at(kind, 0)),
    };
    if let Some(tree) = whole {
        return Ok(tree);
    }
    read_slowly(alloc, text)
}
