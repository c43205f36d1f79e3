// Opening a store.
ghost use Rattle.std.specs.Prelude.{◌≡◌, ◌≤◌, ◌++◌, ◌∷◌, [], List, length, vec_len, IfErr, IfOk, MatchOption, MatchResult};
ghost use Rattle.pocket_types.specs.declared.records.Collection.{Collection};
ghost use Rattle.pocket_keeper.specs.Rows.{IsRising};
ghost use Rattle.pocket_keeper.specs.declared.rows.KeptRow.{KeptRow};
ghost use Rattle.pocket_store.specs.Drafts.{Adds, HasRoom, IsWhole, no_recs, shelves_of};
ghost use Rattle.pocket_store.specs.Finding.{Holds, NamesRow};
ghost use Rattle.pocket_store.specs.Limits.{AreCounts};
ghost use Rattle.pocket_store.specs.SoundStates.{IsSoundStored};
ghost use Rattle.pocket_store.specs.Stores.{AreReadable, AreWithinLimits, IsFaultOf, IsGoodRow, IsStoreOf};

use crate::good_collections::{is_good_collection, readable_collections};
use crate::good_recs::good_rec;
use crate::good_tokens::good_token;
use crate::limits::Counts;
use crate::stored::{StoreFault, Stored};
use pocket_keeper::{KeptRow, Token};
use pocket_types::{Collection, Rec, Seq, Shelf, World};
use std::alloc::{AllocError, Global};

/// What a row holds that may stand in a store, as far as limits let it.
#[derive(Drop)]
pub(crate) enum Found {
    Collection,
    /// A record, and the place of its collection.
    Rec { at: usize, rec: Rec },
    Token(Token),
}

/// What a row holds. None exactly where it may not stand among the rows.
fn found_in(
    alloc: Global,
    rows: &[KeptRow],
    collections: &[Collection],
    row: &KeptRow,
) -> Result<Option<Found>, AllocError>
    requires rising { IsRising rows.now }
    requires readable { AreReadable rows.now collections.now }
    ensures { IfOk result (λ found. MatchOption found (¬ IsGoodRow rows.now collections.now row.now) (Holds rows.now collections.now row.now)) }
{
    if is_good_collection(alloc, rows, collections, row)? {
        return Ok(Some(Found::Collection));
    }
    if let Some((at, rec)) = good_rec(alloc, rows, collections, row)? {
        return Ok(Some(Found::Rec { at, rec }));
    }
    match good_token(alloc, rows, collections, row)? {
        Some(token) => Ok(Some(Found::Token(token))),
        None => Ok(None),
    }
}

/// The counts with what a row holds. None where that passes a limit.
fn counted(counts: Counts, found: &Found, row: &KeptRow) -> Option<Counts>
    requires { counts.store ≤ 268435456 }
    ensures { (rows : List KeptRow) (cs : List Collection) (before : List KeptRow) → Holds rows cs row.now found.now → AreCounts before counts
        → MatchOption result (¬ AreWithinLimits (before ++ row.now ∷ [])) (AreCounts (before ++ row.now ∷ [])) }
{
    match found {
        Found::Collection => counts.with_collection(),
        Found::Rec { .. } => counts.with_rec(row.value.len() as u64),
        Found::Token(_) => counts.with_token(),
    }
}

/// What the next row holds, and the counts with it. None exactly where it is bad.
fn next_row(
    alloc: Global,
    rows: &[KeptRow],
    collections: &[Collection],
    row: &KeptRow,
    counts: Counts,
) -> Result<Option<(Found, Counts)>, AllocError>
    requires rising { IsRising rows.now }
    requires readable { AreReadable rows.now collections.now }
    requires room { counts.store ≤ 268435456 }
    ensures { IfOk result (λ next. (before : List KeptRow) → AreCounts before counts → MatchOption next
        (¬ (IsGoodRow rows.now collections.now row.now × AreWithinLimits (before ++ row.now ∷ [])))
        (λ n. Holds rows.now collections.now row.now n.0 × AreCounts (before ++ row.now ∷ []) n.1)) }
{
    let Some(found) = found_in(alloc, rows, collections, row)? else {
        return Ok(None);
    };
    match counted(counts, &found, row) {
        Some(counts) => Ok(Some((found, counts))),
        None => Ok(None),
    }
}

/// The fault of a row that may not stand there.
fn bad_store(row: &KeptRow) -> StoreFault
    ensures { NamesRow row.now result }
{
    match row.key.clone() {
        Ok(key) => StoreFault::BadStore(key),
        Err(_) => StoreFault::Memory,
    }
}

/// Adds what a row holds to the records and tokens so far.
fn add(recs: &mut Vec<Seq<Rec>>, tokens: &mut Vec<Token>, found: Found) -> Result<(), AllocError>
    requires { HasRoom (vec_len recs.old) found }
    ensures { IfOk result (λ _. Adds found recs.old.items tokens.old.items recs.new.items tokens.new.items) }
{
    match found {
        Found::Collection => Ok(()),
        Found::Rec { at, rec } => {
            recs[at].push(rec)?;
            Ok(())
        }
        Found::Token(token) => {
            tokens.push(token)?;
            Ok(())
        }
    }
}

/// No records, for each of the collections.
fn no_recs(alloc: Global, collections: &[Collection]) -> Result<Vec<Seq<Rec>>, AllocError>
    ensures { IfOk result (λ recs. recs.items ≡ no_recs collections.now) }
{
    let mut recs = Vec::new(alloc);
    for _collection in collections {
        recs.push(Seq::new(alloc))?;
    }
    Ok(recs)
}

/// Reads the rows one by one, up to the first bad one: adds each record to those of its collection, and gives the tokens.
fn read_rows(
    alloc: Global,
    rows: &[KeptRow],
    collections: &[Collection],
    recs: &mut Vec<Seq<Rec>>,
) -> Result<Vec<Token>, StoreFault>
    requires rising { IsRising rows.now }
    requires readable { AreReadable rows.now collections.now }
    requires empty { recs.old.items ≡ no_recs collections.now }
    ensures { MatchResult result (λ tokens. IsWhole rows.now collections.now recs.new.items tokens.items) (IsFaultOf rows.now) }
{
    let mut tokens = Vec::new(alloc);
    let mut counts = Counts::none();
    for row in rows {
        match next_row(alloc, rows, collections, row, counts) {
            Ok(Some((found, next))) => {
                counts = next;
                add(recs, &mut tokens, found)?;
            }
            Ok(None) => return Err(bad_store(row)),
            Err(_) => return Err(StoreFault::Memory),
        }
    }
    Ok(tokens)
}

/// The shelves of the collections and of their records, put together from the last on.
fn shelves_of(
    alloc: Global,
    mut collections: Vec<Collection>,
    mut recs: Vec<Seq<Rec>>,
) -> Result<Vec<Shelf>, AllocError>
    requires { length recs.items ≡ length collections.items }
    ensures { IfOk result (λ shelves. shelves.items ≡ shelves_of collections.items recs.items) }
{
    let mut shelves = Vec::new(alloc);
    for _ in 0..collections.len() {
        let Some(collection) = collections.pop() else {
            unreachable!();
        };
        let Some(recs) = recs.pop() else {
            unreachable!();
        };
        shelves.push(Shelf { collection, recs })?;
    }
    shelves.reverse();
    Ok(shelves)
}

/// The state that the rows stand for. `BadStore` names the first row, in the order of the keys, that may not stand in a store, or
/// with which the rows up to it pass a limit.
///
/// Time grows with the bytes of the rows, and with the logarithm of their number for each that refers to another.
pub fn stored_of(alloc: Global, rows: &Seq<KeptRow>) -> Result<Stored, StoreFault>
    requires { IsRising rows.now }
    ensures ok { IfOk result (IsStoreOf rows.now) }
    ensures sound { IfOk result IsSoundStored }
    ensures bad { IfErr result (IsFaultOf rows.now) }
{
    let rows = rows.as_slice();
    let collections = readable_collections(alloc, rows)?;
    let mut recs = no_recs(alloc, &collections)?;
    let tokens = read_rows(alloc, rows, &collections, &mut recs)?;
    let shelves = shelves_of(alloc, collections, recs)?;
    Ok(Stored {
        world: World {
            shelves: Seq::from_vec(shelves),
        },
        tokens: Seq::from_vec(tokens),
    })
}
