ghost use Rattle.std.specs.Prelude.{◌≡◌, IfSome, IsTrue};
ghost use Rattle.json_order.specs.private.Entries.{keys_of, last_before, AreOrdered};

use crate::lent::LentMember;

/// How keys follow one another.
#[derive(Clone, Copy)]
pub(crate) enum KeyOrder {
    /// Each is greater than the one before it.
    Rising,
    /// Each is less than the one before it.
    Falling,
}

/// The key may follow these members in this order: the last of them, if there is one, has a lesser
/// key, or a greater one if keys fall.
#[inline(always)]
pub(crate) fn is_behind(order: KeyOrder, members: &[LentMember<'_>], key: &str) -> bool
    ensures { result ≡ last_before order (keys_of members.now) key.now }
{
    let len = members.len();
    if len == 0 {
        return true;
    }
    let (last, _) = &members[len - 1];
    match order {
        KeyOrder::Rising => last.as_str().cmp(key).is_lt(),
        KeyOrder::Falling => key.cmp(last.as_str()).is_lt(),
    }
}

/// The keys of these members are in this order.
fn are_ordered(order: KeyOrder, members: &[LentMember<'_>]) -> bool
    ensures { IsTrue result → AreOrdered order (keys_of members.now) }
{
    for (i, (name, _)) in members.iter().enumerate() {
        if !is_behind(order, &members[..i], name.as_str()) {
            return false;
        }
    }
    true
}

/// The order of these members by their keys, if they have one.
#[inline(never)]
pub(crate) fn order_of(members: &[LentMember<'_>]) -> Option<KeyOrder>
    ensures { IfSome result (λ order. AreOrdered order (keys_of members.now)) }
{
    if are_ordered(KeyOrder::Rising, members) {
        return Some(KeyOrder::Rising);
    }
    if are_ordered(KeyOrder::Falling, members) {
        return Some(KeyOrder::Falling);
    }
    None
}
