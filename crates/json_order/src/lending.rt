//! A tree whose texts lie in another tree.
ghost use Rattle.std.specs.Prelude.{◌≡◌, IfOk, map};
ghost use Rattle.json_order.specs.Seen.{json_of};
ghost use Rattle.json_order.specs.Lent.{lent_json};
ghost use Rattle.json_order.specs.private.Copies.{entries_of_copy};
ghost use Rattle.json_order.specs.private.Places.{entries_of_tree};

use crate::lent::{LentMember, LentText, LentTree};
use crate::tree::Tree;
use std::alloc::{AllocError, Global};

/// The same value, whose texts lie in the tree. Its lists and objects take memory.
///
/// An Err says that a growth was refused.
#[cycle(lend)]
pub fn lend<'a>(alloc: Global, tree: &'a Tree) -> Result<LentTree<'a>, AllocError>
    ensures { IfOk result (λ t. lent_json t ≡ json_of tree.now) }
{
    match tree {
        Tree::Null => Ok(LentTree::Null),
        Tree::Bool(b) => Ok(LentTree::Bool(*b)),
        Tree::Number(text) => Ok(LentTree::Number(LentText::InPlace(text.as_str()))),
        Tree::Text(text) => Ok(LentTree::Text(LentText::InPlace(text.as_str()))),
        Tree::List(items) => Ok(LentTree::List(lend_items(alloc, items)?)),
        Tree::Object(members) => Ok(LentTree::Object(lend_members(alloc, members)?)),
    }
}

#[cycle(lend)]
fn lend_items<'a>(alloc: Global, items: &'a Vec<Tree>) -> Result<Vec<LentTree<'a>>, AllocError>
    ensures { IfOk result (λ v. map lent_json v.items ≡ map json_of items.now.items) }
{
    let mut lent = Vec::with_capacity(alloc, items.len())?;
    for item in items {
        lent.push(lend(alloc, item)?)?;
    }
    Ok(lent)
}

#[cycle(lend)]
fn lend_members<'a>(
    alloc: Global,
    members: &'a Vec<(String, Tree)>,
) -> Result<Vec<LentMember<'a>>, AllocError>
    ensures { IfOk result (λ v. entries_of_tree v.items ≡ entries_of_copy members.now.items) }
{
    let mut lent = Vec::with_capacity(alloc, members.len())?;
    for member in members {
        let key = LentText::InPlace(member.0.as_str());
        lent.push((key, lend(alloc, &member.1)?))?;
    }
    Ok(lent)
}
