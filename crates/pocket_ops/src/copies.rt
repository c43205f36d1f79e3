ghost use Rattle.std.specs.Prelude.{◌≡◌, IfOk};

use crate::trees::push_made;
use pocket_types::{Jv, Member, Seq};
use std::alloc::{AllocError, Global};

/// A copy of a tree.
#[cycle(copy)]
pub fn copied_tree(alloc: Global, tree: &Jv) -> Result<Jv, AllocError>
    ensures { IfOk result (λ copy. copy ≡ tree.now) }
{
    match tree {
        Jv::Null => Ok(Jv::Null),
        Jv::Flag(flag) => Ok(Jv::Flag(*flag)),
        Jv::Num(n) => Ok(Jv::Num(*n)),
        Jv::Text(text) => Ok(Jv::Text(text.clone()?)),
        Jv::List(items) => Ok(Jv::List(copied_items(alloc, items)?)),
        Jv::Map(members) => Ok(Jv::Map(copied_members(alloc, members)?)),
    }
}

#[cycle(copy)]
fn copied_items(alloc: Global, items: &Seq<Jv>) -> Result<Seq<Jv>, AllocError>
    ensures { IfOk result (λ copies. copies ≡ items.now) }
{
    let mut copies = Seq::new(alloc);
    for item in items.as_slice() {
        push_made(&mut copies, copied_tree(alloc, item))?;
    }
    Ok(copies)
}

#[cycle(copy)]
fn copied_members(alloc: Global, members: &Seq<Member>) -> Result<Seq<Member>, AllocError>
    ensures { IfOk result (λ copies. copies ≡ members.now) }
{
    let mut copies = Seq::new(alloc);
    for member in members.as_slice() {
        let key = member.key.clone()?;
        let value = copied_tree(alloc, &member.value)?;
        copies.push(Member { key, value })?;
    }
    Ok(copies)
}
