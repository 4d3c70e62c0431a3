ghost use Rattle.std.specs.Prelude.{◌≡◌, ◌++◌, [], ◌∷◌, ◌+◌, ◌<◌, ◌≤◌, true, length, slice_index_or, IfOk, OnOk, IfErr, OnErr};
ghost use Rattle.json_order.specs.Lent.{text_bytes};
ghost use Rattle.std.specs.Vec.{vec_len, vec_capacity};
ghost use Rattle.json_order.specs.declared.fault.JsonKind.TheVariants.{Memory};
ghost use Rattle.json_order.specs.declared.key_set.KeySet.{KeySet};
ghost use Rattle.json_order.specs.Grammar.{has_key};
ghost use Rattle.json_order.specs.private.Entries.{keys_of, last_before, AreOrdered};
ghost use Rattle.json_order.specs.private.Findings.{IsKeyFinding, HasKeyMark, Finds};
ghost use Rattle.json_order.specs.private.KeySets.{HasKeys};
ghost use Rattle.json_order.specs.private.Marks.{mark_of as mark_of_key};

use crate::fault::JsonKind;
use crate::key_order::{KeyOrder, is_behind, order_of};
use crate::key_set::{KeySet, is_same, mark_of, set_of};
use crate::lent::{LentMember, LentText, LentTree};
use crate::new_key::{Finding, NewKey};
use std::alloc::Global;

/// Up to so many members, a key is compared with each of them.
const FEW: usize = 16;

/// From so many members on, their room doubles each time it grows.
const MANY: usize = 64;

/// The members of an object so far, in the order of the text. If they are more than a few and their
/// keys neither rise nor fall, a set of the keys finds a repeated one without a look at each.
#[derive(Drop)]
pub(crate) struct Members<'a> {
    pub(crate) list: Vec<LentMember<'a>>,
    /// One set of all keys. It is empty if they are few, or if they are in the order below.
    pub(crate) sets: Vec<KeySet>,
    /// The order of the keys of more than a few members without a set. A key that follows the last
    /// is new.
    pub(crate) order: KeyOrder,
    ghost ordered: { sets.items ≡ [] → 16 < length list.items
        → AreOrdered order (keys_of list.items) },
    ghost known: { (d : KeySet) → 0 < length sets.items
        → HasKeys (slice_index_or sets.items 0 d) (keys_of list.items) },
}

impl<'a> Members<'a> {
    pub(crate) fn new(alloc: Global) -> Members<'a>
        ensures { result.list.items ≡ [] }
    {
        Members {
            list: Vec::new(alloc),
            sets: Vec::new(alloc),
            order: KeyOrder::Rising,
        }
    }

    /// What is found out about this key, or None if a member has it.
    #[inline(always)]
    pub(crate) fn look_for(&self, key: &str) -> Option<Finding>
        ensures { Finds self.now.order (keys_of self.now.list.items) key.now result }
    {
        if !self.sets.is_empty() {
            let mark = mark_of(key);
            if self.sets[0].has(&self.list, mark, key) {
                return None;
            }
            return Some(Finding::Marked(mark));
        }
        if self.list.len() > FEW && is_behind(self.order, &self.list, key) {
            return Some(Finding::Behind);
        }
        if is_among(&self.list, key) {
            return None;
        }
        Some(Finding::Unknown)
    }

    /// A member has this key.
    pub(crate) fn has(&self, key: &str) -> bool
        ensures { result ≡ has_key (keys_of self.now.list.items) key.now }
    {
        match self.look_for(key) {
            Some(_) => false,
            None => true,
        }
    }

    /// Adds a member with a key that was looked for. If memory runs out the members stay as they
    /// were.
    #[inline(always)]
    pub(crate) fn push(&mut self, key: NewKey<'a>, value: LentTree<'a>) -> Result<(), JsonKind>
        requires { IsKeyFinding self.old.order (keys_of self.old.list.items) (text_bytes key.text)
            key.finding }
        ensures ok { OnOk result
            (self.new.list.items ≡ self.old.list.items ++ (key.entry.text, value.entry) ∷ []) }
        ensures err { IfErr result (λ k. k ≡ Memory) }
    {
        let NewKey { text, finding } = key;
        if !self.sets.is_empty() {
            let mark = marked(finding, text.as_str());
            return self.push_known(text, mark, value);
        }
        if self.needs_none(text.as_str(), finding) {
            return self.push_behind(text, value);
        }
        self.push_scattered(text, value)
    }

    /// The members need no set with this key either: they are few, or the key follows them in an
    /// order, which the struct has from now on.
    #[inline(always)]
    fn needs_none(&mut self, key: &str, finding: Finding) -> bool
        requires none { self.old.sets.items ≡ [] }
        requires found { IsKeyFinding self.old.order (keys_of self.old.list.items) key.now finding }
        ensures list { self.new.list ≡ self.old.list }
        ensures sets { self.new.sets ≡ self.old.sets }
        ensures ordered { result ≡ true → 15 < length self.new.list.items
            → AreOrdered self.new.order (keys_of self.new.list.items) }
        ensures last { result ≡ true → 15 < length self.new.list.items
            → last_before self.new.order (keys_of self.new.list.items) key.now ≡ true }
    {
        if self.list.len() < FEW {
            return true;
        }
        if self.list.len() > FEW {
            return matches!(finding, Finding::Behind);
        }
        match order_of(&self.list) {
            Some(order) => {
                self.order = order;
                is_behind(order, &self.list, key)
            }
            None => false,
        }
    }

    /// Adds a member to few, or one whose key follows the others in their order.
    #[inline(always)]
    fn push_behind(&mut self, key: LentText<'a>, value: LentTree<'a>) -> Result<(), JsonKind>
        requires none { self.old.sets.items ≡ [] }
        requires ordered { 15 < length self.old.list.items
            → AreOrdered self.old.order (keys_of self.old.list.items) }
        requires last { 15 < length self.old.list.items
            → last_before self.old.order (keys_of self.old.list.items) (text_bytes key) ≡ true }
        ensures ok { OnOk result
            (self.new.list.items ≡ self.old.list.items ++ (key.entry, value.entry) ∷ []) }
        ensures err { IfErr result (λ k. k ≡ Memory) }
    {
        add_member(&mut self.list, key, value)
    }

    /// Adds a member that needs a set, and makes it.
    #[inline(never)]
    fn push_scattered(&mut self, key: LentText<'a>, value: LentTree<'a>) -> Result<(), JsonKind>
        requires none { self.old.sets.items ≡ [] }
        ensures ok { OnOk result
            (self.new.list.items ≡ self.old.list.items ++ (key.entry, value.entry) ∷ []) }
        ensures err { IfErr result (λ k. k ≡ Memory) }
    {
        let alloc = *self.list.allocator();
        let set = set_of(alloc, &self.list)?;
        self.sets.push(set)?;
        let mark = mark_of(key.as_str());
        self.push_known(key, mark, value)
    }

    /// Adds a member, and its key with its mark to the set.
    #[inline(never)]
    fn push_known(
        &mut self,
        key: LentText<'a>,
        mark: u32,
        value: LentTree<'a>,
    ) -> Result<(), JsonKind>
        requires mark { mark ≡ mark_of_key (text_bytes key) }
        requires some { 0 < length self.old.sets.items }
        ensures ok { OnOk result
            (self.new.list.items ≡ self.old.list.items ++ (key.entry, value.entry) ∷ []) }
        ensures err { IfErr result (λ k. k ≡ Memory) }
    {
        let alloc = *self.list.allocator();
        make_room(&mut self.list)?;
        if self.sets[0].is_full(self.list.len()) {
            let set = set_of(alloc, &self.list)?;
            self.sets[0] = set;
        }
        self.sets[0].add(alloc, &self.list, mark, key.as_str())?;
        self.list.push_reserved((key, value));
        Ok(())
    }
}

/// The key's mark, which may be known already.
#[inline(always)]
fn marked(finding: Finding, key: &str) -> u32
    requires { HasKeyMark key.now finding }
    ensures { result ≡ mark_of_key key.now }
{
    match finding {
        Finding::Marked(mark) => mark,
        _ => mark_of(key),
    }
}

/// One of these members has this key.
#[inline(never)]
fn is_among(members: &[LentMember<'_>], key: &str) -> bool
    ensures { result ≡ has_key (keys_of members.now) key.now }
{
    for (name, _) in members {
        if is_same(name.as_str(), key) {
            return true;
        }
    }
    false
}

/// Makes room for more members: for two, then for the few, then for four times as many. From there
/// on it doubles.
#[inline(never)]
fn grow(list: &mut Vec<LentMember<'_>>) -> Result<(), JsonKind>
    ensures items { list.new.items ≡ list.old.items }
    ensures ok { OnOk result (vec_len list.new < vec_capacity list.new) }
    ensures err { IfErr result (λ k. k ≡ Memory) }
{
    let len = list.len();
    if len == 0 {
        list.reserve_exact(2)?;
    } else if len < FEW {
        list.reserve_exact(FEW - len)?;
    } else if len < MANY {
        list.reserve_exact(MANY - len)?;
    } else {
        list.reserve(1)?;
    }
    Ok(())
}

/// Room for one more member.
#[inline(always)]
fn make_room(list: &mut Vec<LentMember<'_>>) -> Result<(), JsonKind>
    ensures items { list.new.items ≡ list.old.items }
    ensures ok { OnOk result (vec_len list.new < vec_capacity list.new) }
    ensures err { IfErr result (λ k. k ≡ Memory) }
{
    if list.len() == list.capacity() {
        return grow(list);
    }
    Ok(())
}

/// Adds a member to a list of them.
#[inline(always)]
fn add_member<'a>(
    list: &mut Vec<LentMember<'a>>,
    key: LentText<'a>,
    value: LentTree<'a>,
) -> Result<(), JsonKind>
    ensures len { length list.new.items ≤ length list.old.items + 1 }
    ensures ok { OnOk result (list.new.items ≡ list.old.items ++ (key.entry, value.entry) ∷ []) }
    ensures kept { OnErr result (list.new.items ≡ list.old.items) }
    ensures err { IfErr result (λ k. k ≡ Memory) }
{
    make_room(list)?;
    list.push_reserved((key, value));
    Ok(())
}

/// Adds a list's last member. If more than half of the room is left over, it is given back.
#[inline(always)]
pub(crate) fn add_last_member<'a>(
    list: &mut Vec<LentMember<'a>>,
    key: LentText<'a>,
    value: LentTree<'a>,
) -> Result<(), JsonKind>
    ensures ok { OnOk result (list.new.items ≡ list.old.items ++ (key.entry, value.entry) ∷ []) }
    ensures err { IfErr result (λ k. k ≡ Memory) }
{
    if list.len() == list.capacity() {
        list.reserve_exact(1)?;
    }
    list.push_reserved((key, value));
    if list.capacity() / 2 > list.len() {
        list.shrink_to_fit();
    }
    Ok(())
}

/// The members with one more behind them.
pub(crate) fn with_member<'a>(
    members: Members<'a>,
    key: LentText<'a>,
    value: LentTree<'a>,
) -> Result<Members<'a>, JsonKind>
    ensures ok { IfOk result (λ m. m.list.items
        ≡ members.entry.list.items ++ (key.entry, value.entry) ∷ []) }
    ensures err { IfErr result (λ k. k ≡ Memory) }
{
    let mut more = members;
    let finding = match more.look_for(key.as_str()) {
        Some(finding) => finding,
        None => Finding::Unknown,
    };
    more.push(NewKey { text: key, finding }, value)?;
    Ok(more)
}
