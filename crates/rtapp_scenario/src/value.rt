ghost use Rattle.std.specs.Prelude.{◌≡◌, ◌≤◌, [], Some, None, if◌then◌else◌, IfSome, map};
ghost use Rattle.std.specs.Option.{option_map};
ghost use Rattle.std.specs.Str.{bytes_eq};
ghost use Rattle.std.specs.Str.Parse.{digits_value};
ghost use Rattle.std.specs.List.{list_all};
ghost use Rattle.std.specs.Char.{is_ascii_digit};
ghost use Rattle.json_order.specs.Lent.{lent_json};
ghost use Rattle.rtapp_scenario.specs.Values.{members_of, object_of, list_of, text_value, numeral_of, is_natural, natural_in, natural_within, members, at};

use json_order::{LentMember, LentTree};

/// The most that may stand before a last digit, within 64 signed bits.
const MOST_BEFORE: u64 = 922_337_203_685_477_580;

/// The members of an object, none of another value.
pub(crate) fn object<'a, 'b>(tree: &'a LentTree<'b>) -> Option<&'a [LentMember<'b>]>
    ensures { option_map (λ ms. members_of ms.now) result ≡ object_of (lent_json tree.now) }
{
    match tree {
        LentTree::Object(members) => Some(members.as_slice()),
        _ => None,
    }
}

/// No members.
pub(crate) fn no_members<'a, 'b>() -> &'a [LentMember<'b>]
    ensures { result.now ≡ [] }
{
    &[]
}

/// The members of an object; another value has none.
pub(crate) fn members<'a, 'b>(tree: &'a LentTree<'b>) -> &'a [LentMember<'b>]
    ensures { members_of result.now ≡ members (lent_json tree.now) }
{
    let Some(members) = object(tree) else {
        return no_members();
    };
    members
}

/// The items of a list, none of another value.
pub(crate) fn list<'a, 'b>(tree: &'a LentTree<'b>) -> Option<&'a [LentTree<'b>]>
    ensures { option_map (λ items. map lent_json items.now) result ≡ list_of (lent_json tree.now) }
{
    match tree {
        LentTree::List(items) => Some(items.as_slice()),
        _ => None,
    }
}

/// A text, none of another value.
pub(crate) fn text<'a>(tree: &'a LentTree<'_>) -> Option<&'a str>
    ensures { option_map (λ text. text.now) result ≡ text_value (lent_json tree.now) }
{
    match tree {
        LentTree::Text(text) => Some(text.as_str()),
        _ => None,
    }
}

/// The text of a number, none of another value.
pub(crate) fn number<'a>(tree: &'a LentTree<'_>) -> Option<&'a str>
    ensures { option_map (λ text. text.now) result ≡ numeral_of (lent_json tree.now) }
{
    match tree {
        LentTree::Number(text) => Some(text.as_str()),
        _ => None,
    }
}

/// The texts have the same bytes.
pub(crate) fn is(text: &str, word: &str) -> bool
    ensures { result ≡ bytes_eq text.now word.now }
{
    text == word
}

pub(crate) fn are_digits(text: &[u8]) -> bool
    ensures { result ≡ list_all is_ascii_digit text.now }
{
    text.iter().all(|b| b.is_ascii_digit())
}

/// The number that digits write, where it is within 64 signed bits.
fn digits(text: &[u8]) -> Option<u64>
    ensures { result ≡ (if is_natural text.now then Some (digits_value 10 text.now) else None) }
{
    if text.is_empty() {
        return None;
    }
    let mut n: u64 = 0;
    for digit in text {
        if !digit.is_ascii_digit() {
            return None;
        }
        if n > MOST_BEFORE {
            return None;
        }
        n = n * 10 + (*digit - b'0') as u64;
    }
    if n >= 1 << 63 {
        return None;
    }
    Some(n)
}

/// A whole number not below 0, within 64 signed bits.
#[tactic(auto, unfolding(crate::specs::Values::natural_in))]
fn natural(text: &str) -> Option<u64>
    ensures { result ≡ natural_in text.now }
{
    if is(text, "-0") {
        return Some(0);
    }
    digits(text.as_bytes())
}

/// A whole number from the least to the most.
#[tactic(auto, unfolding(crate::specs::Values::natural_within))]
pub(crate) fn natural_within(tree: &LentTree<'_>, least: u64, most: u64) -> Option<u64>
    ensures value { result ≡ natural_within least most (lent_json tree.now) }
    ensures within { IfSome result (λ n. (least ≤ n) × (n ≤ most)) }
{
    let n = natural(number(tree)?)?;
    if n < least || n > most {
        return None;
    }
    Some(n)
}

/// The value at a key: the first, where a key stands twice.
pub(crate) fn at<'a, 'b>(key: &str, members: &'a [LentMember<'b>]) -> Option<&'a LentTree<'b>>
    ensures { option_map (λ v. lent_json v.now) result ≡ at key.now (members_of members.now) }
{
    for member in members {
        if is(member.0.as_str(), key) {
            return Some(&member.1);
        }
    }
    None
}
