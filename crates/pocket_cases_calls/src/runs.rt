// Whole runs: a command line, kept rows and an input, and what comes of them.
use pocket::{RunEnd, Status, Turn, run_plain, sample_rows};
use pocket_cases_text::{Given, Trouble, in_both_ways, keeper_of_lines, push_row};
use pocket_keeper::MemoryKeeper;
use pocket_ops::date_read;
use pocket_types::Seq;
use pocket_wire::{CountingDice, FixedClock, MemorySink, MemorySource};
use std::alloc::{AllocError, Global};

/// What a run is given beside its words.
#[derive(Clone, Copy)]
struct Setting<'a> {
    words: &'a str,
    rows: &'a str,
    input: &'a str,
}

/// The words of a command line.
fn words_of(alloc: Global, line: &str) -> Result<Vec<String>, AllocError> {
    let mut words = Vec::new(alloc);
    if !line.is_empty() {
        for word in line.split(' ') {
            words.push(String::from_str(alloc, word)?)?;
        }
    }
    Ok(words)
}

/// The numbers behind this letter in a plan of faults: 0 and 3 behind `r` in `r0 w1 r3`.
fn numbers(alloc: Global, faults: &str, letter: char) -> Result<Vec<u64>, Trouble> {
    let mut found = Vec::new(alloc);
    for fault in faults.split(' ') {
        if let Some(number) = fault.strip_prefix(letter) {
            found.push(number.parse::<u64>().ok().ok_or("no number of a call")?)?;
        }
    }
    Ok(found)
}

/// The input of a plan. Of the reads those behind `r` fail.
fn input_of(
    alloc: Global,
    input: &str,
    piece: &str,
    faults: &str,
) -> Result<MemorySource, Trouble> {
    let piece = piece.parse::<usize>().ok().ok_or("no size of pieces")?;
    let failing = numbers(alloc, faults, 'r')?;
    let bytes = Seq::from_vec(input.as_bytes().to_vec(alloc)?);
    Ok(MemorySource::new(bytes, piece.max(1), failing))
}

fn push_turn(text: &mut String, turn: &Turn) -> Result<(), AllocError> {
    let [first, second] = turn.draw.words;
    write!(
        text,
        "{} {} {first} {second}",
        turn.at,
        turn.draw.moment.millis()
    )
}

/// Adds the place, the moment and the words of each turn, or how many there are where they are more than nine.
fn push_turns(text: &mut String, turns: &[Turn]) -> Result<(), AllocError> {
    if turns.len() > 9 {
        return write!(text, "{} turns", turns.len());
    }
    for (number, turn) in turns.iter().enumerate() {
        text.push_str(if number == 0 { "" } else { "; " })?;
        push_turn(text, turn)?;
    }
    Ok(())
}

/// The key of the row to which a run's end comes down.
fn bad_key(ended: &RunEnd) -> &str {
    match ended {
        RunEnd::BadStore(key) => key.as_str(),
        _ => "",
    }
}

/// What came of a run: the exit status, the turns, the number of accepted commands, how often clock and dice were asked, and what was
/// sent, or the key of a bad row.
fn told(
    alloc: Global,
    status: &Status,
    clock: u64,
    dice: u64,
    out: &[u8],
) -> Result<String, Trouble> {
    let out = str::from_utf8(out).ok().ok_or("no UTF-8 was sent")?;
    let mut text = format!(in alloc; "{} [", status.ended.code())?;
    push_turns(&mut text, status.turns.as_slice())?;
    let key = bad_key(&status.ended);
    write!(
        &mut text,
        "] {} {clock} {dice}|{out}{key}",
        status.journal.len()
    )?;
    Ok(text)
}

/// What comes of a run of these words between an input, an output and a keeper.
fn run_between(
    alloc: Global,
    words: &[String],
    source: &mut MemorySource,
    sink: &mut MemorySink,
    keeper: &mut MemoryKeeper,
) -> Result<String, Trouble> {
    let mut clock = FixedClock::new(date_read("2024-05-01 10:00").ok_or("no moment")?);
    let mut dice = CountingDice::new(0);
    let status = run_plain(alloc, words, source, sink, keeper, &mut clock, &mut dice);
    told(alloc, &status, clock.calls, dice.calls, sink.bytes())
}

/// What comes of a run of these words over a keeper.
fn run_over(
    alloc: Global,
    words: &[String],
    input: &str,
    plan: &str,
    keeper: &mut MemoryKeeper,
) -> Result<String, Trouble> {
    let (piece, faults) = plan.split_once(' ').unwrap_or((plan, ""));
    let mut source = input_of(alloc, input, piece, faults)?;
    let mut sink = MemorySink::new(Seq::new(alloc), numbers(alloc, faults, 'w')?);
    run_between(alloc, words, &mut source, &mut sink, keeper)
}

/// What comes of a run by a plan: the size of the pieces in which the input comes, and then the calls that fail, by their numbers: `r`
/// reads, `w` writes and `l` loads.
fn run(alloc: Global, setting: Setting<'_>, plan: &str) -> Result<String, Trouble> {
    let words = words_of(alloc, setting.words)?;
    let mut keeper = keeper_of_lines(alloc, setting.rows, numbers(alloc, plan, 'l')?)?;
    run_over(alloc, words.as_slice(), setting.input, plan, &mut keeper)
}

/// What comes of a run by each of some plans.
fn run_all(alloc: Global, setting: Setting<'_>, plans: &str) -> Result<String, Trouble> {
    let (first, others) = plans.split_once('/').unwrap_or((plans, ""));
    let mut outcome = run(alloc, setting, first)?;
    for plan in others.split('/').filter(|plan| !plan.is_empty()) {
        outcome = in_both_ways(alloc, outcome, run(alloc, setting, plan), plan)?;
    }
    Ok(outcome)
}

/// What comes of this input, with the given `words`, and the given `rows` with the given `changes` put over them, by each of the given
/// `plans`.
pub fn pipe(alloc: Global, given: &Given, input: &str) -> Result<String, Trouble> {
    let rows = rows_with(alloc, given, given.text("changes"))?;
    let setting = Setting {
        words: given.text("words"),
        rows: rows.as_str(),
        input,
    };
    run_all(alloc, setting, given.text("plans"))
}

/// The given rows with these put over them.
fn rows_with(alloc: Global, given: &Given, rows: &str) -> Result<String, AllocError> {
    format!(in alloc; "{}\n{rows}", given.text("rows"))
}

/// What comes of the given rows with these put over them, and no input.
fn run_with(alloc: Global, given: &Given, rows: &str) -> Result<String, Trouble> {
    let rows = rows_with(alloc, given, rows)?;
    let setting = Setting {
        words: given.text("words"),
        rows: rows.as_str(),
        input: "GET",
    };
    run(alloc, setting, "100000 r0 w0")
}

/// What comes of the given rows with a bad one and another one that stands later.
fn run_before(alloc: Global, given: &Given, line: &str) -> Result<String, Trouble> {
    let rows = format!(in alloc; "t/z\n{line}")?;
    run_with(alloc, given, rows.as_str())
}

/// What comes of the given rows with a bad one in place of that of its key, alone and before another one.
pub fn bad_row(alloc: Global, given: &Given, line: &str) -> Result<String, Trouble> {
    let outcome = run_with(alloc, given, line)?;
    in_both_ways(alloc, outcome, run_before(alloc, given, line), "before t/z")
}

/// The lines of the sample's rows.
pub fn sample(alloc: Global) -> Result<String, Trouble> {
    let mut lines = String::new(alloc);
    for row in sample_rows(alloc)?.as_slice() {
        push_row(&mut lines, row)?;
    }
    Ok(lines)
}
