// Rows of tokens, read back.
ghost use Rattle.std.specs.Prelude.{◌≡◌, ◌≢◌, ℕ, List, Some, ◌++◌, codes, IfOk, IsTrue, MatchOption};
ghost use Rattle.std.specs.List.{list_all};
ghost use Rattle.pocket_types.specs.Names.{is_name, is_id};
ghost use Rattle.pocket_ops.specs.Trees.{text_jv};
ghost use Rattle.pocket_rows.specs.Cells.{AreShallow, value_under, HasNoToken, MayHaveToken, MayKeepToken};
ghost use Rattle.pocket_rows.specs.RowReading.{KeepsNoToken, KeepsToken};
ghost use Rattle.pocket_rows.specs.SoundTokens.{is_hex, is_token};

use crate::members::{members_of, moment_under, text_under};
use crate::scalars;
use pocket_keeper::{KeptRow, Token, row_of_token};
use pocket_types::{Id, Member, Name, Text};
use std::alloc::{AllocError, Global};

fn is_hex(byte: u8) -> bool
    ensures { result ≡ is_hex byte }
{
    byte.is_ascii_digit() || (b'a'..=b'f').contains(&byte)
}

fn are_hex(bytes: &[u8]) -> bool
    ensures { result ≡ list_all is_hex bytes.now }
{
    bytes.iter().all(|byte| is_hex(*byte))
}

/// Whether a text is 32 hexadecimal digits in lower case.
fn is_token(text: &str) -> bool
    ensures { result ≡ is_token text.now }
{
    let hex = are_hex(text.as_bytes());
    text.len() == 32 && hex
}

/// The text of the token that a key may be of.
fn token_of(key: &str) -> Option<&str>
    ensures { MatchOption result
        ((text : List ℕ) → IsTrue (is_token text) → key.now ≢ codes "t/" ++ text)
        (λ text. IsTrue (is_token text.now) × (key.now ≡ codes "t/" ++ text.now)) }
{
    let text = key.strip_prefix("t/")?;
    if is_token(text) { Some(text) } else { None }
}

/// The name of the collection.
fn name_of(alloc: Global, members: &[Member]) -> Result<Option<Name>, AllocError>
    requires { AreShallow members.now }
    ensures { IfOk result (λ found. MatchOption found
        ((name : List ℕ) → IsTrue (is_name name) → value_under (codes "collection") members.now ≢ Some (text_jv name))
        (λ name. IsTrue (is_name name) × (value_under (codes "collection") members.now ≡ Some (text_jv name)))) }
{
    match text_under(members, "collection") {
        Some(text) => scalars::name_of(alloc, text),
        None => Ok(None),
    }
}

/// The id of the record.
fn id_of(members: &[Member]) -> Option<Id>
    requires { AreShallow members.now }
    ensures { MatchOption result
        ((id : List ℕ) → IsTrue (is_id id) → value_under (codes "id") members.now ≢ Some (text_jv id))
        (λ id. IsTrue (is_id id) × (value_under (codes "id") members.now ≡ Some (text_jv id))) }
{
    let text = text_under(members, "id")?;
    Id::read(text)
}

/// The one token of this text that the members may be of. None only where none is.
fn token_of_members(
    alloc: Global,
    text: &str,
    members: &[Member],
) -> Result<Option<Token>, AllocError>
    requires members { AreShallow members.now }
    requires text { IsTrue (is_token text.now) }
    ensures { IfOk result (λ found. MatchOption found (HasNoToken members.now) (λ token. MayHaveToken text.now members.now token)) }
{
    let Some(collection) = name_of(alloc, members)? else {
        return Ok(None);
    };
    let Some(id) = id_of(members) else {
        return Ok(None);
    };
    let Some(until) = moment_under(members, "until") else {
        return Ok(None);
    };
    Ok(Some(Token {
        text: Text::from_str(alloc, text)?,
        collection,
        id,
        until,
    }))
}

/// The one token that may have a row. None only where none has it.
fn candidate(alloc: Global, row: &KeptRow) -> Result<Option<Token>, AllocError>
    ensures { IfOk result (λ found. MatchOption found (KeepsNoToken row.now) (λ token. MayKeepToken row.now token)) }
{
    let Some(text) = token_of(row.key.as_str()) else {
        return Ok(None);
    };
    let Some(members) = members_of(alloc, row.value.as_str())? else {
        return Ok(None);
    };
    token_of_members(alloc, text, members.as_slice())
}

/// The token that a row keeps. None exactly where no sound token has this row.
pub fn token_of_row(alloc: Global, row: &KeptRow) -> Result<Option<Token>, AllocError>
    ensures { IfOk result (λ found. MatchOption found (KeepsNoToken row.now) (λ token. KeepsToken row.now token)) }
{
    let Some(token) = candidate(alloc, row)? else {
        return Ok(None);
    };
    let printed = row_of_token(alloc, &token.text, &token.collection, token.id, token.until)?;
    let same_key = printed.key == row.key;
    let same_value = printed.value == row.value;
    if same_key && same_value {
        Ok(Some(token))
    } else {
        Ok(None)
    }
}
