// The rows that keep collections, records and tokens.
ghost use Rattle.std.specs.Prelude.{◌≡◌, [], ◌∷◌, ◌++◌, IfOk, map};
ghost use Rattle.pocket_ops.specs.Dates.{date_text};
ghost use Rattle.pocket_types.specs.Maps.{map_jv, member_of};
ghost use Rattle.pocket_ops.specs.Trees.{text_jv};
ghost use Rattle.pocket_keeper.specs.Texts.{collection_key, collection_row, rec_key, rec_row, token_members, token_row};

use crate::rows::KeptRow;
use pocket_ops::{collection_jv, date_text, kept_jv};
use pocket_types::{Collection, Id, Jv, Member, Moment, Name, Rec, Seq, Text};
use std::alloc::{AllocError, Global};

/// The key of a collection's row: `c/` and the collection's name.
pub fn collection_key(alloc: Global, name: &str) -> Result<Text, AllocError>
    ensures { IfOk result (λ key. key ≡ collection_key name.now) }
{
    let mut key = String::from_str(alloc, "c/")?;
    key.push_str(name)?;
    Ok(Text::from_string(key))
}

/// The key of a record's row: `r/`, its collection's name, `/` and its id.
pub fn rec_key(alloc: Global, name: &str, id: &str) -> Result<Text, AllocError>
    ensures { IfOk result (λ key. key ≡ rec_key name.now id.now) }
{
    let mut key = String::from_str(alloc, "r/")?;
    key.push_str(name)?;
    key.push('/')?;
    key.push_str(id)?;
    Ok(Text::from_string(key))
}

/// The row that keeps a collection: `c/` and its name, and the collection's JSON.
pub fn row_of_collection(alloc: Global, collection: &Collection) -> Result<KeptRow, AllocError>
    ensures { IfOk result (λ row. row ≡ collection_row collection.now) }
{
    let key = collection_key(alloc, collection.name.as_str())?;
    let value = collection_jv(alloc, collection)?.print(alloc)?;
    Ok(KeptRow { key, value })
}

/// The row that keeps a record: `r/`, its collection's name, `/` and its id, and its dates and all its cells.
pub fn row_of_rec(alloc: Global, collection: &Collection, rec: &Rec) -> Result<KeptRow, AllocError>
    ensures { IfOk result (λ row. row ≡ rec_row collection.now rec.now) }
{
    let key = rec_key(alloc, collection.name.as_str(), rec.id.as_str())?;
    let value = kept_jv(alloc, collection, rec)?.print(alloc)?;
    Ok(KeptRow { key, value })
}

fn push_text(
    members: &mut Vec<Member>,
    alloc: Global,
    key: &str,
    text: &str,
) -> Result<(), AllocError>
    ensures { IfOk result (λ _. members.new.items ≡ members.old.items ++ member_of (key.now, text_jv text.now) ∷ []) }
{
    let key = Text::from_str(alloc, key)?;
    let value = Jv::Text(Text::from_str(alloc, text)?);
    members.push(Member { key, value })?;
    Ok(())
}

/// The text of a moment, as a text.
fn push_moment(
    members: &mut Vec<Member>,
    alloc: Global,
    key: &str,
    moment: Moment,
) -> Result<(), AllocError>
    ensures { IfOk result (λ _. members.new.items ≡ members.old.items ++ member_of (key.now, text_jv (date_text moment)) ∷ []) }
{
    match str::from_utf8(&date_text(moment)) {
        Ok(text) => push_text(members, alloc, key, text),
        Err(_) => unreachable!(),
    }
}

/// Whose token it is, and until when.
fn token_members(
    alloc: Global,
    collection: &Name,
    id: Id,
    until: Moment,
) -> Result<Vec<Member>, AllocError>
    ensures { IfOk result (λ members. members.items ≡ map member_of (token_members collection.now id until)) }
{
    let mut members = Vec::new(alloc);
    push_text(&mut members, alloc, "collection", collection.as_str())?;
    push_text(&mut members, alloc, "id", id.as_str())?;
    push_moment(&mut members, alloc, "until", until)?;
    Ok(members)
}

fn token_jv(alloc: Global, collection: &Name, id: Id, until: Moment) -> Result<Jv, AllocError>
    ensures { IfOk result (λ tree. tree ≡ map_jv (token_members collection.now id until)) }
{
    let members = token_members(alloc, collection, id, until)?;
    Ok(Jv::Map(Seq::from_vec(members)))
}

/// The row that keeps a token: `t/` and its text, and the collection and id of its record with the moment of its end.
pub fn row_of_token(
    alloc: Global,
    token: &Text,
    collection: &Name,
    id: Id,
    until: Moment,
) -> Result<KeptRow, AllocError>
    ensures { IfOk result (λ row. row ≡ token_row (record { text = token.now; collection = collection.now; id = id; until = until })) }
{
    let mut key = String::from_str(alloc, "t/")?;
    key.push_str(token.as_str())?;
    let value = token_jv(alloc, collection, id, until)?.print(alloc)?;
    Ok(KeptRow {
        key: Text::from_string(key),
        value,
    })
}
