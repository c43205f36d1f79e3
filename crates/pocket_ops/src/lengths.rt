// The lengths of the compact texts of trees, without making the texts.
ghost use Rattle.std.specs.Prelude.{◌≡◌, ℕ, List, ◌∷◌, ◌++◌, ◌+◌, length, map};
ghost use Rattle.std.specs.Fmt.{signed_decimal};
ghost use Rattle.std.specs.List.{join_with_byte};
ghost use Rattle.pocket_types.specs.Json.{printed, printed_member, quoted, escape_byte, comma_before};
ghost use Rattle.pocket_ops.specs.Cells.{texts_jv};
ghost use Rattle.pocket_ops.specs.Lengths.{held};

use crate::items::Item;
use itoa::Buffer;
use pocket_types::{Jv, Member};

/// How many bytes stand for a byte in a string.
#[tactic(auto, unfolding(pocket_types::specs::Json::escape_byte))]
fn escape_len(byte: u8) -> u64
    ensures { result ≡ length (escape_byte byte) }
{
    match byte {
        b'"' | b'\\' | 8 | 9 | 10 | 12 | 13 => 2,
        0..=31 => 6,
        _ => 1,
    }
}

/// The length of a string, its quotes included.
pub fn text_len(text: &str) -> u64
    ensures { result ≡ held (length (quoted text.now)) }
{
    let mut len = 2u64; // both quotes
    for byte in text.as_bytes() {
        len = len.saturating_add(escape_len(*byte));
    }
    len
}

/// The length of the comma before an item that is not the first.
fn comma_len(at: usize) -> u64
    ensures { result ≡ length (comma_before at) }
{
    if at > 0 { 1 } else { 0 }
}

/// The length of the list of the texts of items.
pub fn texts_len<T: Item>(items: &[T]) -> u64
    ensures { result ≡ held (length (printed (texts_jv (T.texts items.now)))) }
{
    let mut len = 2u64;
    for (i, item) in items.iter().enumerate() {
        len = len.saturating_add(comma_len(i));
        len = len.saturating_add(text_len(item.as_str()));
    }
    len
}

/// The length of a member of a map, of the length of its value.
pub fn member_len(key: &str, value: u64) -> u64
    ensures { (text : List ℕ) → value ≡ held (length text) → result ≡ held (length (quoted key.now ++ 58 ∷ text)) }
{
    text_len(key).saturating_add(1).saturating_add(value)
}

/// The length of a number.
pub fn num_len(n: i64) -> u64
    ensures { result ≡ length (signed_decimal n) }
{
    let mut buffer = Buffer::new();
    buffer.format(n).len() as u64
}

/// The length of a tree's compact text.
#[cycle(len)]
pub fn tree_len(tree: &Jv) -> u64
    ensures { result ≡ held (length (printed tree.now)) }
{
    match tree {
        Jv::Null => 4,
        Jv::Flag(true) => 4,
        Jv::Flag(false) => 5,
        Jv::Num(n) => num_len(*n),
        Jv::Text(text) => text_len(text.as_str()),
        Jv::List(items) => items_len(items.as_slice()),
        Jv::Map(members) => members_len(members.as_slice()),
    }
}

#[cycle(len)]
fn items_len(items: &[Jv]) -> u64
    ensures { result ≡ held (length (join_with_byte 44 (map printed items.now)) + 2) }
{
    let mut len = 2u64;
    for (i, item) in items.iter().enumerate() {
        len = len.saturating_add(comma_len(i));
        len = len.saturating_add(tree_len(item));
    }
    len
}

#[cycle(len)]
fn members_len(members: &[Member]) -> u64
    ensures { result ≡ held (length (join_with_byte 44 (map printed_member members.now)) + 2) }
{
    let mut len = 2u64;
    for (i, member) in members.iter().enumerate() {
        len = len.saturating_add(comma_len(i));
        len = len.saturating_add(member_len(member.key.as_str(), tree_len(&member.value)));
    }
    len
}
