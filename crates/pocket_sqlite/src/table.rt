ghost use Rattle.std.specs.Prelude.{◌≡◌, ◌≢◌, ◌↔◌, ◌⊎◌, ℕ, ◌-◌, true, false, List, [], ◌∷◌, ◌++◌, length, slice_get, All, IsTrue, IfOk, IfErr, OnOk, OnErr};
ghost use Rattle.sqlite_value.specs.Order.{Row as SqlRow, column};
ghost use Rattle.sqlite.specs.State.{HasCleanDisk, Executes, Shown};
ghost use Rattle.sqlite.specs.Values.{bound};
ghost use Rattle.sqlite.specs.Held.{state};
ghost use Rattle.pocket_types.specs.Order.{IsBefore};
ghost use Rattle.pocket_keeper.specs.Rows.{IsRising};
ghost use Rattle.pocket_sqlite.specs.Reading.{cells, shown, AreRead, Holds, IsText, IsReadable, IsBehind, AreFaulty};
ghost use Rattle.pocket_sqlite.specs.Writing.{deletions, insertions, HaveBeenKept, HaveRun, IsAsCommitted, IsUncommitted};

use pocket_keeper::{KeepFault, KeptRow};
use pocket_types::{Seq, Text};
use sqlite::types::ValueRef;
use sqlite::{Alter, Connection, Error, ErrorCode, Row, Transaction, params};
use std::alloc::Global;

/// Makes the table where there is none of its name.
const CREATE: &str =
    "CREATE TABLE IF NOT EXISTS kept (k TEXT PRIMARY KEY NOT NULL, v TEXT NOT NULL) STRICT";

/// Texts are compared by their bytes, the default of a column.
const SELECT: &str = "SELECT k, v FROM kept ORDER BY k";

const DELETE: &str = "DELETE FROM kept WHERE k = ?1";

const PUT: &str =
    "INSERT INTO kept (k, v) VALUES (?1, ?2) ON CONFLICT (k) DO UPDATE SET v = excluded.v";

/// Whether the database wanted memory, and refused for nothing else.
pub(crate) fn is_want_of_memory(error: &Error) -> bool
    ensures { IsTrue result ↔ (error.now ≡ Error.SqliteFailure ErrorCode.OutOfMemory) }
{
    matches!(error, Error::SqliteFailure(ErrorCode::OutOfMemory))
}

/// What a keeper answers where the database gives this error.
pub(crate) fn keep_fault(error: Error) -> KeepFault
    ensures { (result ≡ KeepFault.Memory) ↔ (error ≡ Error.SqliteFailure ErrorCode.OutOfMemory) }
{
    if is_want_of_memory(&error) {
        KeepFault::Memory
    } else {
        KeepFault::Failed
    }
}

/// Makes the table where the database has none of its name.
pub(crate) fn make_table<S: Alter>(database: &mut Connection<S>) -> Result<(), Error>
    requires { database.old.in_transaction ≡ false }
    ensures { database.new.in_transaction ≡ false }
{
    let mut making = database.transaction();
    making.execute(CREATE, params![])?;
    making.commit()
}

/// Runs one statement inside a transaction.
fn run<S: Alter>(
    writing: &mut Transaction<'_, S>,
    text: &str,
    values: &[ValueRef<'_>],
) -> Result<(), Error>
    ensures same_reference { writing.new.conn.ghost_name ≡ writing.old.conn.ghost_name }
    ensures uncommitted { IsUncommitted (state S.Store writing.old.conn.now) (state S.Store writing.new.conn.now) }
    ensures goes_on { HasCleanDisk (state S.Store writing.new.conn.now) → OnOk result (writing.new.conn.now.in_transaction ≡ true) }
    ensures ran { HasCleanDisk (state S.Store writing.new.conn.now)
        → OnOk result ((count : ℕ) × Executes text.now (bound values.now) (state S.Store writing.old.conn.now) (state S.Store writing.new.conn.now) (Ok count)) }
{
    writing.execute(text, values)?;
    Ok(())
}

fn cut_all<S: Alter>(writing: &mut Transaction<'_, S>, cuts: &[Text]) -> Result<(), Error>
    ensures same_reference { writing.new.conn.ghost_name ≡ writing.old.conn.ghost_name }
    ensures uncommitted { IsUncommitted (state S.Store writing.old.conn.now) (state S.Store writing.new.conn.now) }
    ensures goes_on { writing.old.conn.now.in_transaction ≡ true → HasCleanDisk (state S.Store writing.new.conn.now) → OnOk result (writing.new.conn.now.in_transaction ≡ true) }
    ensures ran { HasCleanDisk (state S.Store writing.new.conn.now) → OnOk result (HaveRun S.Store (deletions DELETE.now cuts.now) writing.old.conn.now writing.new.conn.now) }
{
    for key in cuts {
        run(writing, DELETE, params![key.as_str()])?;
    }
    Ok(())
}

fn put_all<S: Alter>(writing: &mut Transaction<'_, S>, puts: &[KeptRow]) -> Result<(), Error>
    ensures same_reference { writing.new.conn.ghost_name ≡ writing.old.conn.ghost_name }
    ensures uncommitted { IsUncommitted (state S.Store writing.old.conn.now) (state S.Store writing.new.conn.now) }
    ensures goes_on { writing.old.conn.now.in_transaction ≡ true → HasCleanDisk (state S.Store writing.new.conn.now) → OnOk result (writing.new.conn.now.in_transaction ≡ true) }
    ensures ran { HasCleanDisk (state S.Store writing.new.conn.now) → OnOk result (HaveRun S.Store (insertions PUT.now puts.now) writing.old.conn.now writing.new.conn.now) }
{
    for row in puts {
        run(writing, PUT, params![row.key.as_str(), row.value.as_str()])?;
    }
    Ok(())
}

/// Makes the cuts and then the puts in one transaction, which is undone where one of them is refused.
pub(crate) fn write_rows<S: Alter>(
    database: &mut Connection<S>,
    puts: &[KeptRow],
    cuts: &[Text],
) -> Result<(), Error>
    requires { database.old.in_transaction ≡ false }
    ensures idle { database.new.in_transaction ≡ false }
    ensures kept { HasCleanDisk (state S.Store database.new)
        → OnOk result (HaveBeenKept S.Store (deletions DELETE.now cuts.now ++ insertions PUT.now puts.now) database.old database.new) }
    ensures undone { OnErr result (IsAsCommitted (state S.Store database.old) (state S.Store database.new)) }
{
    let mut writing = database.transaction();
    cut_all(&mut writing, cuts)?;
    put_all(&mut writing, puts)?;
    writing.commit()
}

fn text_at(found: &Row, at: usize) -> Result<Text, Error>
    ensures ok { IfOk result (λ text. Holds (column found.now at) text) }
    ensures err { IfErr result (λ e. e ≢ Error.SqliteFailure ErrorCode.OutOfMemory → ¬ (IsText (column found.now at))) }
{
    let text: String = found.get(at)?;
    Ok(Text::from_string(text))
}

fn row_of(found: &Row) -> Result<KeptRow, Error>
    ensures ok { IfOk result (λ row. shown found.now ≡ cells row) }
    ensures err { IfErr result (λ e. e ≢ Error.SqliteFailure ErrorCode.OutOfMemory → ¬ (IsReadable found.now)) }
{
    Ok(KeptRow {
        key: text_at(found, 0)?,
        value: text_at(found, 1)?,
    })
}

/// Whether the key stands after those of all these rows.
fn is_above(key: &Text, rows: &[KeptRow]) -> bool
    requires { IsRising rows.now }
    ensures above { IsTrue result → All (λ row. IsBefore row.key key.now) rows.now }
    ensures behind { result ≡ false → (last : KeptRow) × (slice_get rows.now (length rows.now - 1) ≡ Some last) × ¬ (IsBefore last.key key.now) }
{
    match rows.last() {
        Some(last) => last.key < *key,
        None => true,
    }
}

/// Reads the next row that was found, and puts it behind those before it.
fn push_row(rows: &mut Seq<KeptRow>, found: &Row) -> Result<(), KeepFault>
    requires { IsRising rows.old }
    ensures read { OnOk result ((row : KeptRow) × (shown found.now ≡ cells row) × (rows.new ≡ rows.old ++ row ∷ [])) }
    ensures rising { OnOk result (IsRising rows.new) }
    ensures faulty { IfErr result (λ fault. fault ≡ KeepFault.Failed → (¬ (IsReadable found.now)) ⊎ IsBehind rows.old found.now) }
{
    let row = row_of(found).map_err(keep_fault)?;
    if !is_above(&row.key, rows.as_slice()) {
        return Err(KeepFault::Failed);
    }
    rows.push(row)?;
    Ok(())
}

/// The rows that were found.
fn kept_rows(alloc: Global, found: Vec<Row>) -> Result<Seq<KeptRow>, KeepFault>
    ensures read { IfOk result (λ rows. AreRead found.items rows) }
    ensures rising { IfOk result (λ rows. IsRising rows) }
    ensures faulty { IfErr result (λ fault. fault ≡ KeepFault.Failed → AreFaulty found.items) }
{
    let mut rows = Seq::new(alloc);
    for next in found {
        push_row(&mut rows, &next)?;
    }
    Ok(rows)
}

/// The rows of the table.
pub(crate) fn read_rows<S: Alter>(
    alloc: Global,
    database: &mut Connection<S>,
) -> Result<Seq<KeptRow>, KeepFault>
    requires { database.old.in_transaction ≡ false }
    ensures idle { database.new.in_transaction ≡ false }
    ensures read { HasCleanDisk (state S.Store database.new)
        → IfOk result (λ rows. (found : List SqlRow) × Shown SELECT.now [] (state S.Store database.old) (state S.Store database.new) found × AreRead found rows) }
    ensures rising { IfOk result (λ rows. IsRising rows) }
{
    let found = database.query_all(SELECT, params![]).map_err(keep_fault)?;
    kept_rows(alloc, found)
}
