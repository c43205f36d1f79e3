// Rows of tokens that may stand in a store.
ghost use Rattle.std.specs.Prelude.{IfOk, MatchBool, MatchOption};
ghost use Rattle.pocket_keeper.specs.Rows.{IsRising};
ghost use Rattle.pocket_store.specs.Stores.{AreReadable, IsGoodToken, IsKeptMember, IsTokenRow};

use crate::places::{has_rec, place_of};
use pocket_keeper::{KeptRow, Token};
use pocket_rows::token_of_row;
use pocket_types::{Collection, Id, Name};
use std::alloc::{AllocError, Global};

/// Whether a record of an auth collection has a row.
fn is_kept_member(
    alloc: Global,
    rows: &[KeptRow],
    collections: &[Collection],
    name: &Name,
    id: Id,
) -> Result<bool, AllocError>
    requires rising { IsRising rows.now }
    requires readable { AreReadable rows.now collections.now }
    ensures { IfOk result (λ good. MatchBool good (IsKeptMember rows.now collections.now name.now id) (¬ IsKeptMember rows.now collections.now name.now id)) }
{
    let Some(at) = place_of(collections, name.as_str()) else {
        return Ok(false);
    };
    if !collections[at].is_auth {
        return Ok(false);
    }
    has_rec(alloc, rows, name.as_str(), id.as_str())
}

/// The token that a row keeps, where it may stand there.
pub(crate) fn good_token(
    alloc: Global,
    rows: &[KeptRow],
    collections: &[Collection],
    row: &KeptRow,
) -> Result<Option<Token>, AllocError>
    requires rising { IsRising rows.now }
    requires readable { AreReadable rows.now collections.now }
    ensures { IfOk result (λ found. MatchOption found (¬ IsTokenRow rows.now collections.now row.now) (IsGoodToken rows.now collections.now row.now)) }
{
    let Some(token) = token_of_row(alloc, row)? else {
        return Ok(None);
    };
    if is_kept_member(alloc, rows, collections, &token.collection, token.id)? {
        Ok(Some(token))
    } else {
        Ok(None)
    }
}
