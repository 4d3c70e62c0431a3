ghost use Rattle.std.specs.Prelude.{◌≡◌, ◌+◌, ◌/◌, ◌<◌, ◌≤◌, ◌↔◌, ◌++◌, [], ◌∷◌, IsTrue, length, IfOk, IfErr, OnOk, OnErr};
ghost use Rattle.std.specs.List.{All};
ghost use Rattle.std.specs.Str.{bytes_eq};
ghost use Rattle.json_order.specs.declared.fault.JsonKind.TheVariants.{Memory};
ghost use Rattle.json_order.specs.Grammar.{has_key};
ghost use Rattle.json_order.specs.private.Entries.{keys_of};
ghost use Rattle.json_order.specs.private.Marks as marks;
ghost use Rattle.json_order.specs.private.KeySets as sets;
ghost use Rattle.json_order.specs.private.KeySets.{HasKeys, finds, slots_taken};

use crate::fault::JsonKind;
use crate::lent::LentMember;
use std::alloc::Global;
use std::collections::BTreeSet;
use std::hash::{FoldHasher, Hasher};

/// The slots of the first table, which is full with the keys of so many members.
const FIRST_SLOTS: usize = 120;

const FIRST_KEYS: usize = 40;

/// In so many slots, from the first for its mark on, a key may stand.
const WIDTH: usize = 8;

/// A number that keys seldom share.
#[tactic(auto, unfolding(crate::specs::private::Marks::mark_of))]
pub(crate) fn mark_of(key: &str) -> u32
    ensures { result ≡ marks.mark_of key.now }
{
    let mut hasher = FoldHasher::default();
    hasher.write(key.as_bytes());
    (hasher.finish() >> 32) as u32
}

/// A slot of the table: a key's mark, and the number of its member, from 1. A slot that is free has
/// the number 0.
#[derive(Clone, Copy)]
pub(crate) struct Slot {
    pub(crate) mark: u32,
    pub(crate) number: u32,
}

/// The keys of members, in a table by their marks. A key that finds all its slots taken stands in a
/// set beside the table, so that keys that were chosen to share their marks are found in
/// logarithmic time too.
#[derive(Drop)]
pub(crate) struct KeySet {
    pub(crate) slots: Vec<Slot>,
    pub(crate) others: BTreeSet<String>,
}

/// The first slot for a mark, of so many.
fn start_of(slots: usize, mark: u32) -> usize
    requires { 8 < slots }
    ensures start { result ≡ sets.start_of slots mark }
    ensures within { result + 8 < slots + 1 }
{
    mark as usize % (slots - WIDTH)
}

/// The slots for a mark.
fn window(slots: &[Slot], mark: u32) -> &[Slot]
    requires { 8 < length slots.now }
    ensures { result.now ≡ sets.window mark slots.now }
{
    let start = start_of(slots.len(), mark);
    &slots[start..start + WIDTH]
}

/// How many slots in front are taken.
fn taken(window: &[Slot]) -> usize
    ensures { result ≡ slots_taken window.now }
{
    for (i, slot) in window.iter().enumerate() {
        if slot.number == 0 {
            return i;
        }
    }
    window.len()
}

/// The two keys are the same.
#[inline(never)]
fn are_same(name: &str, key: &str) -> bool
    ensures { result ≡ bytes_eq name.now key.now }
{
    name == key
}

/// The two keys are the same. Most that differ do so in their lengths or their last bytes.
#[inline(always)]
pub(crate) fn is_same(name: &str, key: &str) -> bool
    ensures { result ≡ bytes_eq name.now key.now }
{
    let len = key.len();
    if name.len() != len {
        return false;
    }
    if len > 0 && name.as_bytes()[len - 1] != key.as_bytes()[len - 1] {
        return false;
    }
    are_same(name, key)
}

/// The slot has the mark, and its member the key.
fn is_at(slot: Slot, members: &[LentMember<'_>], mark: u32, key: &str) -> bool
    requires some { 0 < slot.number }
    requires within { slot.number ≤ length members.now }
    ensures { result ≡ sets.is_key_at (keys_of members.now) mark key.now slot }
{
    if slot.mark != mark {
        return false;
    }
    let (name, _) = &members[slot.number as usize - 1];
    are_same(name.as_str(), key)
}

/// Whether the key stands in the taken slots in front; none where all are taken, and not by it.
fn found_in(window: &[Slot], members: &[LentMember<'_>], mark: u32, key: &str) -> Option<bool>
    requires { All (λ s. s.number ≤ length members.now) window.now }
    ensures { result ≡ finds window.now (keys_of members.now) mark key.now }
{
    for slot in window {
        if slot.number == 0 {
            return Some(false);
        }
        if is_at(*slot, members, mark, key) {
            return Some(true);
        }
    }
    None
}

impl KeySet {
    /// Of no keys yet, with room for those of so many members and more.
    pub(crate) fn new(alloc: Global, members: usize) -> Result<KeySet, JsonKind>
        ensures ok { IfOk result (λ set. HasKeys set []) }
        ensures err { IfErr result (λ k. k ≡ Memory) }
    {
        let count = if members < FIRST_KEYS {
            FIRST_SLOTS
        } else {
            members.saturating_mul(8)
        };
        let free = Slot { mark: 0, number: 0 };
        Ok(KeySet {
            slots: Vec::from_elem(alloc, free, count)?,
            others: BTreeSet::new(alloc),
        })
    }

    /// The keys of so many members take a third of the table. Up to there hardly any key finds all
    /// its slots taken.
    pub(crate) fn is_full(&self, members: usize) -> bool
        ensures { IsTrue result ↔ length self.now.slots.items / 3 ≤ members }
    {
        members >= self.slots.len() / 3
    }

    /// The key with this mark is one of those of the members.
    #[inline(never)]
    pub(crate) fn has(&self, members: &[LentMember<'_>], mark: u32, key: &str) -> bool
        requires mark { mark ≡ marks.mark_of key.now }
        requires keys { HasKeys self.now (keys_of members.now) }
        ensures { result ≡ has_key (keys_of members.now) key.now }
    {
        match found_in(window(&self.slots, mark), members, mark, key) {
            Some(found) => found,
            None => self.others.contains(key),
        }
    }

    /// Adds the key of the member that comes behind these. A number above 4294967295 is refused as
    /// want of memory.
    pub(crate) fn add(
        &mut self,
        alloc: Global,
        members: &[LentMember<'_>],
        mark: u32,
        key: &str,
    ) -> Result<(), JsonKind>
        requires mark { mark ≡ marks.mark_of key.now }
        requires keys { HasKeys self.old (keys_of members.now) }
        ensures ok { OnOk result (HasKeys self.new (keys_of members.now ++ key.now ∷ [])) }
        ensures kept { OnErr result (HasKeys self.new (keys_of members.now)) }
        ensures err { IfErr result (λ k. k ≡ Memory) }
    {
        let start = start_of(self.slots.len(), mark);
        let used = taken(window(&self.slots, mark));
        if used < WIDTH {
            let Ok(number) = u32::try_from(members.len() + 1) else {
                return Err(JsonKind::Memory);
            };
            self.slots[start + used] = Slot { mark, number };
            return Ok(());
        }
        self.others.insert(String::from_str(alloc, key)?)?;
        Ok(())
    }
}

/// The keys of these members.
pub(crate) fn set_of(alloc: Global, members: &[LentMember<'_>]) -> Result<KeySet, JsonKind>
    ensures ok { IfOk result (λ set. HasKeys set (keys_of members.now)) }
    ensures err { IfErr result (λ k. k ≡ Memory) }
{
    let mut set = KeySet::new(alloc, members.len())?;
    for place in 0..members.len() {
        let (name, _) = &members[place];
        let mark = mark_of(name.as_str());
        set.add(alloc, &members[..place], mark, name.as_str())?;
    }
    Ok(set)
}
