// The members of the map that a row's value is, and what stands under a key.
ghost use Rattle.std.specs.Prelude.{◌≡◌, ◌≢◌, ℕ, List, Some, IfOk, IfSome, MatchOption};
ghost use Rattle.std.specs.Option.{option_copied};
ghost use Rattle.pocket_types.specs.declared.json.Jv.{out-Jv};
ghost use Rattle.pocket_types.specs.declared.json.Jv.TheOpen as jv;
ghost use Rattle.pocket_types.specs.declared.json.Jv.TheViews.{roll-Jv};
ghost use Rattle.pocket_types.specs.declared.json.Member.{Member};
ghost use Rattle.pocket_ops.specs.Trees.{text_jv};
ghost use Rattle.pocket_rows.specs.Cells.{AreShallow, IsNoTree, IsTreeOf, IsNoMap, MayBeMap, value_under, HasNoMoment, MayHaveMoment};
ghost use Rattle.pocket_rows.specs.FieldReading.{members_in};
ghost use Rattle.pocket_types.specs.Sound.{IsCellTree};

use pocket_json::{JsonFault, read_jv};
use pocket_ops::date_read;
use pocket_types::{Jv, Member, Moment, Seq};
use std::alloc::{AllocError, Global};

/// The tree of a text. None exactly where no tree of the profile has this text.
fn read_tree(alloc: Global, text: &str) -> Result<Option<Jv>, AllocError>
    ensures { IfOk result (λ found. MatchOption found (IsNoTree text.now) (λ tree. IsTreeOf text.now tree)) }
{
    match read_jv(alloc, text.as_bytes()) {
        Ok(tree) => Ok(Some(tree)),
        Err(JsonFault::BadJson) => Ok(None),
        Err(JsonFault::Memory) => Err(AllocError),
    }
}

/// The members of a map.
fn map_members(tree: Jv) -> Option<Seq<Member>>
    ensures { MatchOption result
        ((members : List Member) → tree ≢ roll-Jv (jv.Map members))
        (λ members. tree ≡ roll-Jv (jv.Map members)) }
{
    match tree {
        Jv::Map(members) => Some(members),
        Jv::Null => None,
        Jv::Flag(_) => None,
        Jv::Num(_) => None,
        Jv::Text(_) => None,
        Jv::List(_) => None,
    }
}

/// The members of a map that is borrowed.
pub fn members_in(tree: &Jv) -> Option<&[Member]>
    ensures { option_copied result ≡ members_in (out-Jv tree.now) }
{
    match tree {
        Jv::Map(members) => Some(members.as_slice()),
        _ => None,
    }
}

/// The members of the map that may have this text. None only where no map has it.
pub fn members_of(alloc: Global, text: &str) -> Result<Option<Seq<Member>>, AllocError>
    ensures { IfOk result (λ found. MatchOption found (IsNoMap text.now) (λ members. MayBeMap text.now members)) }
{
    let Some(tree) = read_tree(alloc, text)? else {
        return Ok(None);
    };
    Ok(map_members(tree))
}

/// The value under a key.
pub fn value_under<'a>(members: &'a [Member], key: &str) -> Option<&'a Jv>
    ensures { option_copied result ≡ value_under key.now members.now }
{
    for member in members {
        if member.key.as_str() == key {
            return Some(&member.value);
        }
    }
    None
}

/// The value under a key, where each value fits into a cell.
pub fn cell_tree_under<'a>(members: &'a [Member], key: &str) -> Option<&'a Jv>
    requires { AreShallow members.now }
    ensures value { option_copied result ≡ value_under key.now members.now }
    ensures shallow { IfSome result (λ tree. IsCellTree tree.now) }
{
    value_under(members, key)
}

/// The text under a key.
pub fn text_under<'a>(members: &'a [Member], key: &str) -> Option<&'a str>
    requires { AreShallow members.now }
    ensures { MatchOption result
        ((text : List ℕ) → value_under key.now members.now ≢ Some (text_jv text))
        (λ text. value_under key.now members.now ≡ Some (text_jv text.now)) }
{
    match cell_tree_under(members, key) {
        Some(Jv::Text(text)) => Some(text.as_str()),
        _ => None,
    }
}

/// The moment whose text may stand under a key. None only where no moment's text does.
pub fn moment_under(members: &[Member], key: &str) -> Option<Moment>
    requires { AreShallow members.now }
    ensures { MatchOption result (HasNoMoment key.now members.now) (λ moment. MayHaveMoment key.now members.now moment) }
{
    let text = text_under(members, key)?;
    date_read(text)
}
