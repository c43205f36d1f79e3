// Calls over whole stores.
ghost use Rattle.std.specs.Prelude.{IfOk};
ghost use Rattle.pocket_keeper.specs.Rows.{IsRising};

use pocket_cases_text::{Given, Trouble, keeper_of_lines, numbered, push_row, row_of_line};
use pocket_keeper::{
    Committer, Keeper, KeptRow, MemoryKeeper, row_of_collection, row_of_rec, row_of_token,
};
use pocket_store::{StoreFault, Stored, stored_of};
use pocket_types::{Seq, Shelf, Text};
use std::alloc::{AllocError, Global};

/// The rows of these lines, rising by key.
fn loaded(alloc: Global, lines: &str) -> Result<Seq<KeptRow>, Trouble>
    ensures { IfOk result (λ rows. IsRising rows) }
{
    let mut keeper = keeper_of_lines(alloc, lines, Vec::new(alloc))?;
    Ok(keeper.load(alloc)?)
}

/// What the rows of these lines stand for.
fn stored_lines(alloc: Global, lines: &str) -> Result<Stored, Trouble> {
    Ok(stored_of(alloc, &loaded(alloc, lines)?)?)
}

/// Why rows stand for nothing: `bad` and the key of the first bad one.
fn told_fault(alloc: Global, fault: StoreFault) -> Result<String, Trouble> {
    match fault {
        StoreFault::BadStore(key) => Ok(format!(in alloc; "bad {key}")?),
        StoreFault::Memory => Err(Trouble::Memory),
    }
}

/// `ok`, or `bad` and the key of the first bad row. `ok` is after all others in the order of the bytes.
fn told(alloc: Global, keeper: &mut MemoryKeeper) -> Result<String, Trouble> {
    let rows = keeper.load(alloc)?;
    match stored_of(alloc, &rows) {
        Ok(_) => Ok(String::from_str(alloc, "ok")?),
        Err(fault) => told_fault(alloc, fault),
    }
}

fn push_shelf(lines: &mut String, alloc: Global, shelf: &Shelf) -> Result<(), AllocError> {
    push_row(lines, &row_of_collection(alloc, &shelf.collection)?)?;
    for rec in shelf.recs.as_slice() {
        push_row(lines, &row_of_rec(alloc, &shelf.collection, rec)?)?;
    }
    Ok(())
}

/// The lines of what is stored: each collection with its records, and then the tokens.
fn lines_of(alloc: Global, stored: &Stored) -> Result<String, AllocError> {
    let mut lines = String::new(alloc);
    for shelf in stored.world.shelves.as_slice() {
        push_shelf(&mut lines, alloc, shelf)?;
    }
    for token in stored.tokens.as_slice() {
        let row = row_of_token(alloc, &token.text, &token.collection, token.id, token.until)?;
        push_row(&mut lines, &row)?;
    }
    Ok(lines)
}

/// `the same` where the rows of these lines are opened and printed again in this order, else what is printed.
pub fn printed(alloc: Global, lines: &str) -> Result<String, Trouble> {
    let again = lines_of(alloc, &stored_lines(alloc, lines)?)?;
    let same = again.as_str().trim_end() == lines;
    Ok(if same {
        String::from_str(alloc, "the same")?
    } else {
        again
    })
}

/// The row of a collection without fields, whose rules are locked.
fn empty_collection(alloc: Global, name: &str) -> Result<KeptRow, AllocError> {
    let line = format!(in alloc;
        r#"c/{name} {{"createRule":null,"deleteRule":null,"fields":[],"listRule":null,"name":"{name}","type":"base","updateRule":null,"viewRule":null}}"#
    )?;
    row_of_line(alloc, line.as_str())
}

/// A row with a new text in place of an old one in its value.
fn replaced(alloc: Global, row: &KeptRow, old: &str, new: &str) -> Result<KeptRow, Trouble> {
    Ok(KeptRow {
        key: row.key.clone()?,
        value: Text::from_string(row.value.as_str().replace(alloc, old, new)?),
    })
}

/// The row of a key with a new text in place of an old one in its value, as `KEY OLD -> NEW` says.
fn edited(alloc: Global, rows: &[KeptRow], edit: &str) -> Result<KeptRow, Trouble> {
    let (key, edit) = edit.split_once(' ').ok_or("no key")?;
    let (old, new) = edit.split_once(" -> ").ok_or("no edit")?;
    for row in rows {
        if row.key.as_str() == key && row.value.as_str().contains(old) {
            return replaced(alloc, row, old, new);
        }
    }
    Err(Trouble::Case("nothing to edit"))
}

/// The row that a change puts: `+` the row itself, `*` that of a collection without fields, `=` an edited one.
fn put_of(alloc: Global, rows: &[KeptRow], change: &str) -> Result<KeptRow, Trouble> {
    if let Some(row) = change.strip_prefix("+") {
        Ok(row_of_line(alloc, row)?)
    } else if let Some(name) = change.strip_prefix("*") {
        Ok(empty_collection(alloc, name)?)
    } else if let Some(edit) = change.strip_prefix("=") {
        edited(alloc, rows, edit)
    } else {
        Err(Trouble::Case("no change"))
    }
}

/// Adds the row that a change puts, with a number in place of its marks.
fn push_put(
    puts: &mut Seq<KeptRow>,
    alloc: Global,
    rows: &[KeptRow],
    change: &str,
    number: u32,
) -> Result<(), Trouble> {
    let change = numbered(alloc, change, number)?;
    Ok(puts.push(put_of(alloc, rows, change.as_str())?)?)
}

/// The rows that a change puts: so many where `40 times` stands before it, with 1, 2 and so on in place of its marks.
fn puts_of(alloc: Global, rows: &[KeptRow], line: &str) -> Result<Seq<KeptRow>, Trouble> {
    let mut puts = Seq::new(alloc);
    match line.split_once(" times ") {
        Some((times, change)) => {
            for number in 0..times.parse::<u32>().ok().ok_or("no number of times")? {
                push_put(&mut puts, alloc, rows, change, number.saturating_add(1))?;
            }
        }
        None => puts.push(put_of(alloc, rows, line)?)?,
    }
    Ok(puts)
}

/// Adds a row to the puts, or a key to the cuts, of one commit.
fn add_change(
    puts: &mut Seq<KeptRow>,
    cuts: &mut Seq<Text>,
    alloc: Global,
    line: &str,
) -> Result<(), Trouble> {
    match line.strip_prefix("-") {
        Some(key) => cuts.push(Text::from_str(alloc, key)?)?,
        None => puts.push(put_of(alloc, &[], line)?)?,
    }
    Ok(())
}

/// Makes these changes in one commit: `+` puts a row, and `-` cuts that of a key.
fn commit(alloc: Global, keeper: &mut MemoryKeeper, changes: &str) -> Result<(), Trouble> {
    let mut puts = Seq::new(alloc);
    let mut cuts = Seq::new(alloc);
    for line in changes.lines() {
        add_change(&mut puts, &mut cuts, alloc, line)?;
    }
    Ok(keeper.commit(alloc, &puts, &cuts)?)
}

/// Makes a change: `-` takes out the row of a key, all others put rows.
fn change(alloc: Global, keeper: &mut MemoryKeeper, line: &str) -> Result<(), Trouble> {
    if line.starts_with('-') {
        return commit(alloc, keeper, line);
    }
    let puts = puts_of(alloc, keeper.rows(), line)?;
    Ok(keeper.commit(alloc, &puts, &Seq::new(alloc))?)
}

/// Makes the change of a line, in which names stand in angle brackets.
fn change_as_written(
    alloc: Global,
    given: &Given,
    keeper: &mut MemoryKeeper,
    line: &str,
) -> Result<(), Trouble> {
    let line = given.text_of(alloc, line)?;
    change(alloc, keeper, line.as_str())
}

/// What comes of rows after these changes.
fn outcome_after(
    alloc: Global,
    given: &Given,
    rows: &str,
    changes: &str,
) -> Result<String, Trouble> {
    let mut keeper = keeper_of_lines(alloc, rows, Vec::new(alloc))?;
    for line in changes.lines() {
        change_as_written(alloc, given, &mut keeper, line)?;
    }
    told(alloc, &mut keeper)
}

/// What comes of the rows that these changes make alone.
pub fn opened(alloc: Global, given: &Given, changes: &str) -> Result<String, Trouble> {
    outcome_after(alloc, given, "", changes)
}

/// What comes of the given rows after these changes with one more before them.
fn outcome_with(
    alloc: Global,
    given: &Given,
    change: &str,
    changes: &str,
) -> Result<String, Trouble> {
    let changes = format!(in alloc; "{change}\n{changes}")?;
    outcome_after(alloc, given, given.text("rows"), changes.as_str())
}

/// The outcome, where the lesser of it and a bad row's own comes with that row, else both.
fn with_bad_row(
    alloc: Global,
    outcome: String,
    bad: &str,
    found: Result<String, Trouble>,
) -> Result<String, Trouble> {
    let found = found?;
    if found.as_str() == outcome.as_str().min(bad) {
        Ok(outcome)
    } else {
        Ok(format!(in alloc; "{outcome}, but {found} with another row that is {bad}")?)
    }
}

/// What comes of the given rows after these changes, also with an earlier bad row and with a later one, which are named where they come first.
pub fn changed(alloc: Global, given: &Given, changes: &str) -> Result<String, Trouble> {
    let outcome = outcome_after(alloc, given, given.text("rows"), changes)?;
    let found = outcome_with(alloc, given, "+c/0 {}", changes);
    let outcome = with_bad_row(alloc, outcome, "bad c/0", found)?;
    let found = outcome_with(alloc, given, "+z {}", changes);
    with_bad_row(alloc, outcome, "bad z", found)
}

/// The lines of the rows that are kept.
fn kept_lines(alloc: Global, keeper: &mut MemoryKeeper) -> Result<String, Trouble> {
    let mut lines = String::new(alloc);
    for row in keeper.load(alloc)?.as_slice() {
        push_row(&mut lines, row)?;
    }
    Ok(lines)
}

/// The rows after one commit of these changes to a keeper that is made of the given ones.
pub fn committed(alloc: Global, given: &Given, changes: &str) -> Result<String, Trouble> {
    let mut keeper = keeper_of_lines(alloc, given.text("rows"), Vec::new(alloc))?;
    commit(alloc, &mut keeper, changes)?;
    kept_lines(alloc, &mut keeper)
}
