// Values without parts, and what stands so under a key.
ghost use Rattle.std.specs.Prelude.{◌≡◌, ◌≢◌, ℕ, List, IfOk, IsTrue, IsUtf8, MatchOption};
ghost use Rattle.pocket_types.specs.Names.{is_name};
ghost use Rattle.pocket_ops.specs.Trees.{text_jv};
ghost use Rattle.pocket_rows.specs.Cells.{AreShallow, IsNoDate, MayBeDate};
ghost use Rattle.pocket_rows.specs.FieldReading.{flag_at, count_at, count_of, bound_at, date_at, may_be_date, name_of};

use crate::members::cell_tree_under;
use pocket_ops::date_read;
use pocket_types::{Jv, Member, Moment, Name, NameFault};
use std::alloc::{AllocError, Global};

/// The text of a text.
pub fn text_of(tree: &Jv) -> Option<&str>
    ensures { MatchOption result ((t : List ℕ) → tree.now ≢ text_jv t) (λ text. IsUtf8 text.now × (tree.now ≡ text_jv text.now)) }
{
    match tree {
        Jv::Text(text) => Some(text.as_str()),
        _ => None,
    }
}

/// The date that may have a text. None only where no date has it.
pub fn date_of_text(text: &str) -> Option<Option<Moment>>
    ensures date { MatchOption result (IsNoDate (text_jv text.now)) (λ date. MayBeDate (text_jv text.now) date) }
    ensures value { result ≡ may_be_date text.now }
{
    if text.is_empty() {
        return Some(None);
    }
    match date_read(text) {
        Some(moment) => Some(Some(moment)),
        None => None,
    }
}

/// The name that a text spells. None exactly where it spells none.
pub fn name_of(alloc: Global, text: &str) -> Result<Option<Name>, AllocError>
    ensures value { IfOk result (λ found. found ≡ name_of text.now) }
    ensures form { IfOk result (λ found. MatchOption found (¬ IsTrue (is_name text.now)) (λ name. IsTrue (is_name text.now) × (name ≡ text.now))) }
{
    match Name::read(alloc, text) {
        Ok(name) => Ok(Some(name)),
        Err(NameFault::BadName) => Ok(None),
        Err(NameFault::Memory) => Err(AllocError),
    }
}

/// The flag under a key.
#[tactic(auto, unfolding(crate::specs::FieldReading::flag_at))]
pub fn flag_under(members: &[Member], key: &str) -> Option<bool>
    requires { AreShallow members.now }
    ensures { result ≡ flag_at key.now members.now }
{
    match cell_tree_under(members, key)? {
        Jv::Flag(flag) => Some(*flag),
        _ => None,
    }
}

/// A number as a count of 32 bits.
fn count_of(number: i64) -> Option<u32>
    ensures { result ≡ count_of number }
{
    u32::try_from(number).ok()
}

/// The count of 32 bits under a key.
#[tactic(auto, unfolding(crate::specs::FieldReading::count_at))]
pub fn count_under(members: &[Member], key: &str) -> Option<u32>
    requires { AreShallow members.now }
    ensures { result ≡ count_at key.now members.now }
{
    match cell_tree_under(members, key)? {
        Jv::Num(n) => count_of(*n),
        _ => None,
    }
}

/// The bound of a number under a key, where null stands for none.
#[tactic(auto, unfolding(crate::specs::FieldReading::bound_at))]
pub fn bound_under(members: &[Member], key: &str) -> Option<Option<i64>>
    requires { AreShallow members.now }
    ensures { result ≡ bound_at key.now members.now }
{
    match cell_tree_under(members, key)? {
        Jv::Null => Some(None),
        Jv::Num(n) => Some(Some(*n)),
        _ => None,
    }
}

/// The date under a key, where the empty text stands for none.
#[tactic(auto, unfolding(crate::specs::FieldReading::date_at, crate::specs::FieldReading::text_at))]
pub fn date_under(members: &[Member], key: &str) -> Option<Option<Moment>>
    requires { AreShallow members.now }
    ensures { result ≡ date_at key.now members.now }
{
    match cell_tree_under(members, key)? {
        Jv::Text(text) => date_of_text(text.as_str()),
        _ => None,
    }
}
