// Calls over values: comparison, likeness, cells, the choice of fields, dates and macros.
use pocket_cases_text::{Trouble, told_flag, value_of};
use pocket_json::{choose, read_jv};
use pocket_ops::{
    cell_value, compare, count_value, date_read, date_text, like, lowered_value, macro_value,
};
use pocket_types::{Cell, Field, Id, Kind, Macro, Moment, Name, Op, Seq, Text, Value};
use std::alloc::{AllocError, Global};

/// The word of a value.
fn word_of(alloc: Global, value: &Value) -> Result<String, AllocError> {
    match value {
        Value::Nothing => String::from_str(alloc, "nothing"),
        Value::Num(number) => format!(in alloc; "{number}"),
        Value::Flag(flag) => format!(in alloc; "{flag}"),
        Value::Text(text) => format!(in alloc; "\"{text}\""),
    }
}

const OPERATORS: [(&str, Op); 8] = [
    ("=", Op::Eq),
    ("!=", Op::Ne),
    (">", Op::Gt),
    (">=", Op::Ge),
    ("<", Op::Lt),
    ("<=", Op::Le),
    ("~", Op::Like),
    ("!~", Op::Unlike),
];

/// The operators that are true of two values.
fn signs_of(alloc: Global, left: &Value, right: &Value) -> Result<String, AllocError> {
    let mut signs = String::new(alloc);
    for (sign, op) in &OPERATORS {
        if compare(*op, left, right) {
            signs.push_str(*sign)?;
            signs.push(' ')?;
        }
    }
    Ok(signs)
}

/// The operators that are true of `LEFT | RIGHT`.
pub fn compared(alloc: Global, text: &str) -> Result<String, Trouble> {
    let (left, right) = text.split_once(" | ").ok_or("no | between two values")?;
    let left = value_of(alloc, left)?;
    let right = value_of(alloc, right)?;
    Ok(signs_of(alloc, &left, &right)?)
}

/// Whether `VALUE ~ PATTERN` is true.
pub fn liked(alloc: Global, text: &str) -> Result<String, Trouble> {
    let (value, pattern) = text.split_once(" ~ ").ok_or("no ~ between two values")?;
    let value = value_of(alloc, value)?;
    let pattern = value_of(alloc, pattern)?;
    told_flag(alloc, like(&value, &pattern))
}

/// A value in small letters.
pub fn lowered(alloc: Global, text: &str) -> Result<String, Trouble> {
    let value = lowered_value(alloc, value_of(alloc, text)?)?;
    Ok(word_of(alloc, &value)?)
}

/// The kind of a word: `text`, `number`, `bool`, `date`, `json`, or `select` or `relation` with the most items.
fn kind_of(alloc: Global, word: &str) -> Result<Kind, Trouble> {
    match word {
        "text" => Ok(Kind::Text { min: 0, max: 5000 }),
        "number" => Ok(Kind::Number {
            min: None,
            max: None,
        }),
        "bool" => Ok(Kind::Flag),
        "date" => Ok(Kind::Date {
            min: None,
            max: None,
        }),
        "json" => Ok(Kind::Json { max: 65_536 }),
        _ => list_kind_of(alloc, word),
    }
}

fn select(alloc: Global, most: u32) -> Kind {
    Kind::Select {
        values: Seq::new(alloc),
        most,
    }
}

fn relation(alloc: Global, most: u32) -> Result<Kind, Trouble> {
    match Name::read(alloc, "users") {
        Ok(target) => Ok(Kind::Relation {
            target,
            most,
            cascade: false,
        }),
        Err(_) => Err(Trouble::Case("no name")),
    }
}

fn list_kind_of(alloc: Global, word: &str) -> Result<Kind, Trouble> {
    let (word, most) = word.split_once(' ').ok_or("no kind of field")?;
    let most = most.parse::<u32>().ok().ok_or("no number of items")?;
    match word {
        "select" => Ok(select(alloc, most)),
        _ => relation(alloc, most),
    }
}

fn text_cell(alloc: Global, word: &str) -> Result<Cell, Trouble> {
    Ok(Cell::Text(Text::from_str(alloc, word)?))
}

fn number_cell(word: &str) -> Result<Cell, Trouble> {
    match word.parse::<i64>() {
        Ok(number) => Ok(Cell::Num(number)),
        Err(_) => Err(Trouble::Case("no number")),
    }
}

/// A date by its milliseconds since 1970, or no date.
fn date_cell(word: &str) -> Cell {
    Cell::Date(word.parse::<i64>().ok().and_then(Moment::of_millis))
}

fn json_cell(alloc: Global, word: &str) -> Result<Cell, Trouble> {
    match read_jv(alloc, word.as_bytes()) {
        Ok(tree) => Ok(Cell::Json(tree)),
        Err(_) => Err(Trouble::Case("no JSON")),
    }
}

/// The compact text of what a text of fields keeps of a tree, of `"FIELDS" TREE`.
pub fn chosen(alloc: Global, text: &str) -> Result<String, Trouble> {
    let (fields, tree) = text
        .strip_prefix('"')
        .and_then(|rest| rest.split_once("\" "))
        .ok_or("no fields between quotes")?;
    let fields = Text::from_str(alloc, fields)?;
    match read_jv(alloc, tree.as_bytes()) {
        Ok(tree) => Ok(choose(alloc, &tree, &fields)?.print(alloc)?.into_string()),
        Err(_) => Err(Trouble::Case("no JSON")),
    }
}

/// The cell of items with commas between them.
fn picks_cell(alloc: Global, word: &str) -> Result<Cell, Trouble> {
    let mut items = Seq::new(alloc);
    for item in word.split(',').filter(|item| !item.is_empty()) {
        items.push(Text::from_str(alloc, item)?)?;
    }
    Ok(Cell::Picks(items))
}

/// The cell of ids with commas between them.
fn refs_cell(alloc: Global, word: &str) -> Result<Cell, Trouble> {
    let mut ids = Seq::new(alloc);
    for item in word.split(',').filter(|item| !item.is_empty()) {
        ids.push(Id::read(item).ok_or("no id")?)?;
    }
    Ok(Cell::Refs(ids))
}

/// The cell of a word, in a field of the kind.
fn cell_of(alloc: Global, kind: &Kind, word: &str) -> Result<Cell, Trouble> {
    match kind {
        Kind::Text { .. } => text_cell(alloc, word),
        Kind::Number { .. } => number_cell(word),
        Kind::Flag => Ok(Cell::Flag(word == "true")),
        Kind::Date { .. } => Ok(date_cell(word)),
        Kind::Select { .. } => picks_cell(alloc, word),
        Kind::Json { .. } => json_cell(alloc, word),
        Kind::Relation { .. } => refs_cell(alloc, word),
    }
}

fn field_of(alloc: Global, kind: Kind) -> Result<Field, Trouble> {
    Ok(Field {
        name: Name::read(alloc, "f").ok().ok_or("no name")?,
        kind,
        required: false,
        hidden: false,
        unique: false,
    })
}

/// Adds the number of items of a cell.
fn push_count(told: &mut String, alloc: Global, cell: &Cell) -> Result<(), AllocError> {
    told.push_str(" | ")?;
    told.push_str(word_of(alloc, &count_value(cell))?.as_str())
}

/// The value of a cell and the number of its items.
fn told_cell(alloc: Global, field: &Field, cell: &Cell) -> Result<String, AllocError> {
    let mut told = word_of(alloc, &cell_value(alloc, field, cell)?)?;
    push_count(&mut told, alloc, cell)?;
    Ok(told)
}

/// What is told of the cell of a word in a field.
fn told_in(alloc: Global, field: &Field, word: &str) -> Result<String, Trouble> {
    let cell = cell_of(alloc, &field.kind, word)?;
    Ok(told_cell(alloc, field, &cell)?)
}

/// The value and the number of items of `KIND | HELD`.
pub fn cell(alloc: Global, text: &str) -> Result<String, Trouble> {
    let (kind, held) = text.split_once(" | ").ok_or("no | before what is held")?;
    let field = field_of(alloc, kind_of(alloc, kind)?)?;
    told_in(alloc, &field, held)
}

/// The text of a moment.
pub fn moment_text(alloc: Global, moment: Moment) -> Result<String, AllocError> {
    let mut printed = String::new(alloc);
    for byte in date_text(moment) {
        printed.push(char::from(byte))?;
    }
    Ok(printed)
}

/// The text of the moment that a text in brackets stands for, or `none`.
pub fn date(alloc: Global, text: &str) -> Result<String, Trouble> {
    let text = text
        .strip_prefix('[')
        .and_then(|rest| rest.strip_suffix(']'))
        .ok_or("no brackets")?;
    match date_read(text) {
        Some(moment) => Ok(moment_text(alloc, moment)?),
        None => Ok(String::from_str(alloc, "none")?),
    }
}

const MACROS: [(&str, Macro); 16] = [
    ("now", Macro::Now),
    ("second", Macro::Second),
    ("minute", Macro::Minute),
    ("hour", Macro::Hour),
    ("day", Macro::Day),
    ("month", Macro::Month),
    ("year", Macro::Year),
    ("weekday", Macro::Weekday),
    ("yesterday", Macro::Yesterday),
    ("tomorrow", Macro::Tomorrow),
    ("todayStart", Macro::TodayStart),
    ("todayEnd", Macro::TodayEnd),
    ("monthStart", Macro::MonthStart),
    ("monthEnd", Macro::MonthEnd),
    ("yearStart", Macro::YearStart),
    ("yearEnd", Macro::YearEnd),
];

fn macro_of(name: &str) -> Option<Macro> {
    for (word, which) in &MACROS {
        if *word == name {
            return Some(*which);
        }
    }
    None
}

/// The value of `MOMENT MACRO`.
pub fn macro_at(alloc: Global, text: &str) -> Result<String, Trouble> {
    let (moment, name) = text.rsplit_once(' ').ok_or("no macro behind a moment")?;
    let moment = date_read(moment).ok_or("no moment")?;
    let value = macro_value(alloc, macro_of(name).ok_or("no such macro")?, moment)?;
    Ok(word_of(alloc, &value)?)
}
