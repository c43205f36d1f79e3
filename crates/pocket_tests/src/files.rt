// The keeper over files of a database: its calls, and what each comes to.
use pocket_keeper::{Committer, Keeper, KeptRow};
use pocket_sqlite::SqliteKeeper;
use pocket_types::{Seq, Text};
use sqlite::{Connection, Error};
use std::alloc::{AllocError, Global};
use std::test::Fail;
use std::{fs, io};

const CLOSED: &str = "no file is open";

// ---- rows

/// What a commit makes.
#[derive(Drop)]
struct Changes {
    puts: Seq<KeptRow>,
    cuts: Seq<Text>,
}

/// The row that is written as `key=value`.
fn row_of(alloc: Global, text: &str) -> Result<KeptRow, AllocError> {
    let (key, value) = text.split_once('=').unwrap_or((text, ""));
    Ok(KeptRow {
        key: Text::from_str(alloc, key)?,
        value: Text::from_str(alloc, value)?,
    })
}

/// The changes that words name: `+key=value` puts a row, and `-key` cuts one.
fn changes_of(alloc: Global, words: &str) -> Result<Changes, AllocError> {
    let mut changes = Changes {
        puts: Seq::new(alloc),
        cuts: Seq::new(alloc),
    };
    for word in words.split(' ') {
        if let Some(row) = word.strip_prefix('+') {
            changes.puts.push(row_of(alloc, row)?)?;
        } else if let Some(key) = word.strip_prefix('-') {
            changes.cuts.push(Text::from_str(alloc, key)?)?;
        }
    }
    Ok(changes)
}

/// The rows, each as `key=value` behind a space.
fn listed(alloc: Global, rows: &[KeptRow]) -> Result<String, AllocError> {
    let mut text = String::new(alloc);
    for row in rows {
        text.push(' ')?;
        text.push_str(row.key.as_str())?;
        text.push('=')?;
        text.push_str(row.value.as_str())?;
    }
    Ok(text)
}

// ---- calls, each of which says what came of it

/// Opens a file in place of the one that was open.
fn open(rt: &HostRuntime, keeper: &mut Option<SqliteKeeper>, path: &str) -> io::Result<String> {
    *keeper = None;
    match SqliteKeeper::open(rt, path) {
        Ok(opened) => {
            *keeper = Some(opened);
            Ok(String::from_str(rt.alloc(), "opened")?)
        }
        Err(fault) => Ok(format!(in rt.alloc(); "{fault}")?),
    }
}

fn close(alloc: Global, keeper: &mut Option<SqliteKeeper>) -> io::Result<String> {
    *keeper = None;
    Ok(String::from_str(alloc, "closed")?)
}

/// The rows or the fault, and the keeper's count of faults.
fn load(alloc: Global, keeper: &mut Option<SqliteKeeper>) -> io::Result<String> {
    let Some(keeper) = keeper else {
        return Ok(String::from_str(alloc, CLOSED)?);
    };
    let loaded = keeper.load(alloc);
    let faults = keeper.faults();
    match loaded {
        Ok(rows) => {
            let rows = listed(alloc, rows.as_slice())?;
            Ok(format!(in alloc; "faults {faults}, rows{rows}")?)
        }
        Err(fault) => Ok(format!(in alloc; "faults {faults}, {fault:?}")?),
    }
}

/// Whether the changes were made, and the keeper's count of faults.
fn commit(alloc: Global, keeper: &mut Option<SqliteKeeper>, words: &str) -> io::Result<String> {
    let Some(keeper) = keeper else {
        return Ok(String::from_str(alloc, CLOSED)?);
    };
    let changes = changes_of(alloc, words)?;
    let made = keeper.commit(alloc, &changes.puts, &changes.cuts);
    let faults = keeper.faults();
    match made {
        Ok(()) => Ok(format!(in alloc; "faults {faults}, made")?),
        Err(fault) => Ok(format!(in alloc; "faults {faults}, {fault:?}")?),
    }
}

fn execute(rt: &HostRuntime, path: &str, statements: &str) -> Result<(), Error> {
    Connection::open(rt, path)?.execute_batch(statements)
}

/// Runs statements on a file that the keeper doesn't have open.
fn run(rt: &HostRuntime, words: &str) -> io::Result<String> {
    let (path, statements) = head_of(words);
    match execute(rt, path, statements) {
        Ok(()) => Ok(String::from_str(rt.alloc(), "ran")?),
        Err(error) => Ok(format!(in rt.alloc(); "{error}")?),
    }
}

/// Makes a file of a text.
fn write(rt: &HostRuntime, words: &str) -> io::Result<String> {
    let (path, text) = head_of(words);
    fs::write(rt, path, text)?;
    Ok(String::from_str(rt.alloc(), "written")?)
}

/// Removes a file, and its log where there is one.
fn remove(rt: &HostRuntime, path: &str) -> io::Result<String> {
    let log = format!(in rt.alloc(); "{path}-wal")?;
    fs::remove_file(rt, path)?;
    let _ = fs::remove_file(rt, log);
    Ok(String::from_str(rt.alloc(), "removed")?)
}

/// The first word, and what stands behind the space after it.
fn head_of(text: &str) -> (&str, &str) {
    text.split_once(' ').unwrap_or((text, ""))
}

/// Makes the call of a line, and says what came of it.
fn play(rt: &HostRuntime, keeper: &mut Option<SqliteKeeper>, line: &str) -> io::Result<String> {
    let (call, words) = head_of(line);
    match call {
        "open" => open(rt, keeper, words),
        "close" => close(rt.alloc(), keeper),
        "load" => load(rt.alloc(), keeper),
        "commit" => commit(rt.alloc(), keeper, words),
        "run" => run(rt, words),
        "write" => write(rt, words),
        "remove" => remove(rt, words),
        _ => Ok(String::from_str(rt.alloc(), "no call")?),
    }
}

/// Makes the calls of a text, and says below each what came of it. Lines that begin with a space are no calls.
fn play_all(rt: &HostRuntime, text: &str) -> io::Result<String> {
    let mut keeper = None;
    let mut told = String::new(rt.alloc());
    for line in text.lines().filter(|line| !line.starts_with(' ')) {
        let came = play(rt, &mut keeper, line)?;
        write!(&mut told, "{line}\n  {came}\n")?;
    }
    Ok(told)
}

#[test]
fn calls_over_files_come_to_what_is_told(rt: HostRuntime) -> Result<(), Fail> {
    let told = play_all(&rt, CALLS)?;
    assert_eq!(rt; told.as_str(), CALLS);
    Ok(())
}

/// The calls, one a line, and below each what has to come of it.
const CALLS: &str = r#"open new.db
  opened
load
  faults 0, rows
commit +b=2 +a=1 +é=3 +Z=4
  faults 0, made
load
  faults 0, rows Z=4 a=1 b=2 é=3
commit -b -none +a=5 +c=6
  faults 0, made
load
  faults 0, rows Z=4 a=5 c=6 é=3
commit -a +a=7 +c=8 +c=9
  faults 0, made
load
  faults 0, rows Z=4 a=7 c=9 é=3
commit
  faults 0, made
open new.db
  opened
load
  faults 0, rows Z=4 a=7 c=9 é=3
run new.db DELETE FROM kept
  database is locked
close
  closed
load
  no file is open
run new.db DELETE FROM kept WHERE k = 'c'; INSERT INTO kept (k, v) VALUES ('d', 'it''s')
  ran
open new.db
  opened
load
  faults 0, rows Z=4 a=7 d=it's é=3
open .
  unable to open database file; see that the file and its folder can be read and written, that it is a database, and that no other program has it open
open none/new.db
  unable to open database file; see that the file and its folder can be read and written, that it is a database, and that no other program has it open
open :memory:
  unable to open database file; see that the file and its folder can be read and written, that it is a database, and that no other program has it open
remove new.db
  removed
write text.db This text is no database, nor does it begin like one.
  written
open text.db
  file is not a database that obeys its schema; see that the file and its folder can be read and written, that it is a database, and that no other program has it open
load
  no file is open
remove text.db
  removed
run other.db CREATE TABLE kept (name TEXT PRIMARY KEY NOT NULL, size INTEGER NOT NULL) STRICT
  ran
open other.db
  opened
load
  faults 1, Failed
commit +a=1
  faults 2, Failed
commit -a
  faults 3, Failed
commit
  faults 3, made
close
  closed
remove other.db
  removed
run loose.db CREATE TABLE kept (k PRIMARY KEY, v); INSERT INTO kept VALUES ('a', '1'), ('b', NULL)
  ran
open loose.db
  opened
load
  faults 1, Failed
commit +b=2
  faults 1, made
load
  faults 1, rows a=1 b=2
close
  closed
run loose.db UPDATE kept SET v = x'3132' WHERE k = 'b'
  ran
open loose.db
  opened
load
  faults 1, Failed
close
  closed
run loose.db UPDATE kept SET v = 12 WHERE k = 'b'
  ran
open loose.db
  opened
load
  faults 1, Failed
close
  closed
run loose.db UPDATE kept SET v = CAST(x'FF' AS TEXT) WHERE k = 'b'
  ran
open loose.db
  opened
load
  faults 1, Failed
close
  closed
run loose.db DELETE FROM kept WHERE k = 'b'; INSERT INTO kept VALUES (NULL, '3')
  ran
open loose.db
  opened
load
  faults 1, Failed
commit -b
  faults 1, made
close
  closed
remove loose.db
  removed
run cased.db CREATE TABLE kept (k TEXT COLLATE NOCASE PRIMARY KEY NOT NULL, v TEXT NOT NULL) STRICT; INSERT INTO kept VALUES ('a', '1'), ('B', '2')
  ran
open cased.db
  opened
load
  faults 1, Failed
commit -B
  faults 1, made
load
  faults 1, rows a=1
close
  closed
remove cased.db
  removed
run twice.db CREATE TABLE kept (k TEXT NOT NULL, v TEXT NOT NULL) STRICT; INSERT INTO kept VALUES ('a', '1'), ('a', '2')
  ran
open twice.db
  opened
load
  faults 1, Failed
commit +a=3
  faults 2, Failed
load
  faults 3, Failed
commit -a
  faults 3, made
load
  faults 3, rows
close
  closed
remove twice.db
  removed
run checked.db CREATE TABLE kept (k TEXT PRIMARY KEY NOT NULL, v TEXT NOT NULL CHECK (v <> 'bad')) STRICT; INSERT INTO kept VALUES ('a', '1'), ('b', '2')
  ran
open checked.db
  opened
commit -a +b=3 +c=4 +d=bad
  faults 1, Failed
load
  faults 1, rows a=1 b=2
commit -a +b=3 +c=4
  faults 1, made
load
  faults 1, rows b=3 c=4
close
  closed
remove checked.db
  removed
"#;
