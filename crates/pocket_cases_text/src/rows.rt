// Kept rows from lines, and the worlds that they stand for.
ghost use Rattle.std.specs.Prelude.{IfOk};
ghost use Rattle.pocket_store.specs.SoundStates.{IsSoundWorld};

use crate::trouble::Trouble;
use pocket_keeper::{Keeper, KeptRow, MemoryKeeper};
use pocket_store::stored_of;
use pocket_types::{Seq, Text, World};
use std::alloc::{AllocError, Global};

/// The row of a line: its key, a space and its value.
pub fn row_of_line(alloc: Global, line: &str) -> Result<KeptRow, AllocError> {
    let (key, value) = line.split_once(' ').unwrap_or((line, ""));
    Ok(KeptRow {
        key: Text::from_str(alloc, key)?,
        value: Text::from_str(alloc, value)?,
    })
}

/// The rows of lines. An empty line is none.
pub fn rows_of_lines(alloc: Global, lines: &str) -> Result<Seq<KeptRow>, AllocError> {
    let mut rows = Seq::new(alloc);
    for line in lines.lines().filter(|line| !line.is_empty()) {
        rows.push(row_of_line(alloc, line)?)?;
    }
    Ok(rows)
}

/// A keeper with the rows of these lines. Of its calls these fail.
pub fn keeper_of_lines(
    alloc: Global,
    lines: &str,
    failing: Vec<u64>,
) -> Result<MemoryKeeper, AllocError> {
    MemoryKeeper::new(alloc, rows_of_lines(alloc, lines)?, failing)
}

/// Adds the line of a row.
pub fn push_row(lines: &mut String, row: &KeptRow) -> Result<(), AllocError> {
    lines.push_str(row.key.as_str())?;
    lines.push(' ')?;
    lines.push_str(row.value.as_str())?;
    lines.push('\n')
}

/// The world that the rows of these lines stand for.
pub fn world_of_lines(alloc: Global, lines: &str) -> Result<World, Trouble>
    ensures { IfOk result IsSoundWorld }
{
    let mut keeper = keeper_of_lines(alloc, lines, Vec::new(alloc))?;
    Ok(stored_of(alloc, &keeper.load(alloc)?)?.world)
}
