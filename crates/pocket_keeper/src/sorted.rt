// Edits of a list of rows that rises by key.
ghost use Rattle.std.specs.Prelude.{◌≡◌, ◌+◌, ◌<◌, ◌≤◌, [], ◌∷◌, length, vec_len, MatchResult, OnOk, OnErr};
ghost use Rattle.std.specs.Vec.{vec_capacity};
ghost use Rattle.pocket_keeper.specs.Rows.{IsRising};
ghost use Rattle.pocket_keeper.specs.Keeping.{put_row, rows_with, rows_without, committed};
ghost use Rattle.pocket_keeper.specs.Places.{HasRowAt, HasRoomAt};

use crate::rows::KeptRow;
use pocket_types::Text;
use std::alloc::AllocError;

// Where the row of a key stands, or else where it would stand.
fn place_of(rows: &[KeptRow], key: &Text) -> Result<usize, usize>
    requires { IsRising rows.now }
    ensures { MatchResult result (HasRowAt key.now rows.now) (HasRoomAt key.now rows.now) }
{
    rows.binary_search_by(|row| row.key.cmp(key))
}

// Puts a row, for which there is room.
fn put(rows: &mut Vec<KeptRow>, row: KeptRow)
    requires rising { IsRising rows.old.items }
    requires room { vec_len rows.old < vec_capacity rows.old }
    ensures items { rows.new.items ≡ put_row row rows.old.items }
    ensures rising { IsRising rows.new.items }
    ensures len { vec_len rows.new ≤ vec_len rows.old + 1 }
    ensures capacity { vec_capacity rows.old ≤ vec_capacity rows.new }
{
    match place_of(rows, &row.key) {
        Ok(at) => rows[at] = row,
        Err(at) => {
            if rows.insert(at, row).is_err() {
                unreachable!();
            }
        }
    }
}

// Cuts the row of a key, if there is one.
fn cut(rows: &mut Vec<KeptRow>, key: &Text)
    requires { IsRising rows.old.items }
    ensures items { rows.new.items ≡ rows_without (key.now ∷ []) rows.old.items }
    ensures rising { IsRising rows.new.items }
    ensures len { vec_len rows.new ≤ vec_len rows.old }
    ensures capacity { vec_capacity rows.new ≡ vec_capacity rows.old }
{
    if let Ok(at) = place_of(rows, key) {
        let _row = rows.remove(at);
    }
}

// Puts rows in their order, for which there is room.
fn put_all(rows: &mut Vec<KeptRow>, puts: Vec<KeptRow>)
    requires rising { IsRising rows.old.items }
    requires room { vec_len rows.old + vec_len puts ≤ vec_capacity rows.old }
    ensures items { rows.new.items ≡ rows_with puts.items rows.old.items }
    ensures rising { IsRising rows.new.items }
{
    for row in puts {
        put(rows, row);
    }
}

// Cuts the rows of these keys.
fn cut_all(rows: &mut Vec<KeptRow>, cuts: &[Text])
    requires { IsRising rows.old.items }
    ensures items { rows.new.items ≡ rows_without cuts.now rows.old.items }
    ensures rising { IsRising rows.new.items }
    ensures len { vec_len rows.new ≤ vec_len rows.old }
    ensures capacity { vec_capacity rows.new ≡ vec_capacity rows.old }
{
    for key in cuts {
        cut(rows, key);
    }
}

/// Makes the cuts, then the puts. All memory is taken before the first change.
pub(crate) fn change(
    rows: &mut Vec<KeptRow>,
    puts: Vec<KeptRow>,
    cuts: &[Text],
) -> Result<(), AllocError>
    requires { IsRising rows.old.items }
    ensures ok { OnOk result (rows.new.items ≡ committed rows.old.items puts.items cuts.now) }
    ensures err { OnErr result (rows.new.items ≡ rows.old.items) }
    ensures rising { IsRising rows.new.items }
{
    rows.reserve(puts.len())?;
    cut_all(rows, cuts);
    put_all(rows, puts);
    Ok(())
}
