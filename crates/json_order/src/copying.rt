//! A tree with texts of its own, made of one whose texts lie in an input.
ghost use Rattle.std.specs.Prelude.{◌≡◌, IfOk, map, string_bytes};
ghost use Rattle.json_order.specs.Seen.{json_of};
ghost use Rattle.json_order.specs.Lent.{text_bytes, lent_json};
ghost use Rattle.json_order.specs.private.Copies.{entries_of_copy};
ghost use Rattle.json_order.specs.private.Places.{entries_of_tree};

use crate::lent::{LentMember, LentText, LentTree};
use crate::tree::Tree;
use std::alloc::{AllocError, Global};

/// A text of its own.
fn copy_of_text(alloc: Global, text: &LentText<'_>) -> Result<String, AllocError>
    ensures { IfOk result (λ s. string_bytes s ≡ text_bytes text.now) }
{
    String::from_str(alloc, text.as_str())
}

/// The same value, with texts of its own.
#[cycle(copy)]
pub(crate) fn copy_of(alloc: Global, tree: &LentTree<'_>) -> Result<Tree, AllocError>
    ensures { IfOk result (λ t. json_of t ≡ lent_json tree.now) }
{
    match tree {
        LentTree::Null => Ok(Tree::Null),
        LentTree::Bool(b) => Ok(Tree::Bool(*b)),
        LentTree::Number(text) => Ok(Tree::Number(copy_of_text(alloc, text)?)),
        LentTree::Text(text) => Ok(Tree::Text(copy_of_text(alloc, text)?)),
        LentTree::List(items) => Ok(Tree::List(copy_of_items(alloc, items)?)),
        LentTree::Object(members) => Ok(Tree::Object(copy_of_members(alloc, members)?)),
    }
}

#[cycle(copy)]
fn copy_of_items(alloc: Global, items: &Vec<LentTree<'_>>) -> Result<Vec<Tree>, AllocError>
    ensures { IfOk result (λ v. map json_of v.items ≡ map lent_json items.now.items) }
{
    let mut copies = Vec::with_capacity(alloc, items.len())?;
    for item in items {
        copies.push(copy_of(alloc, item)?)?;
    }
    Ok(copies)
}

#[cycle(copy)]
fn copy_of_members(
    alloc: Global,
    members: &Vec<LentMember<'_>>,
) -> Result<Vec<(String, Tree)>, AllocError>
    ensures { IfOk result (λ v. entries_of_copy v.items ≡ entries_of_tree members.now.items) }
{
    let mut copies = Vec::with_capacity(alloc, members.len())?;
    for member in members {
        let key = copy_of_text(alloc, &member.0)?;
        copies.push((key, copy_of(alloc, &member.1)?))?;
    }
    Ok(copies)
}
