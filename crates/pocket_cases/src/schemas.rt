// Collections from short texts.
use pocket_cases_text::{Trouble, name_of};
use pocket_types::{Collection, Field, Kind, Rule, Seq};
use std::alloc::Global;

fn relation(alloc: Global, target: &str, most: u32) -> Result<Kind, Trouble> {
    Ok(Kind::Relation {
        target: name_of(alloc, target)?,
        most,
        cascade: false,
    })
}

fn kind_of(alloc: Global, word: &str, most: u32) -> Result<Kind, Trouble> {
    if let Some(target) = word.strip_prefix('>') {
        return relation(alloc, target, most);
    }
    match word {
        "text" => Ok(Kind::Text { min: 0, max: 5000 }),
        "number" => Ok(Kind::Number {
            min: None,
            max: None,
        }),
        "flag" => Ok(Kind::Flag),
        "date" => Ok(Kind::Date {
            min: None,
            max: None,
        }),
        "json" => Ok(Kind::Json { max: 65_536 }),
        _ => Ok(Kind::Select {
            values: Seq::new(alloc),
            most,
        }),
    }
}

/// A text without its last mark, and whether it had the mark.
fn unmarked(word: &str, mark: char) -> (&str, bool) {
    match word.strip_suffix(mark) {
        Some(word) => (word, true),
        None => (word, false),
    }
}

/// A field `name=kind`, with `*` behind it where it is multiple, and `!` where it is hidden. A relation's kind is `>` and its target.
fn field_of(alloc: Global, name: &str, word: &str) -> Result<Field, Trouble> {
    let (word, hidden) = unmarked(word, '!');
    let (word, is_multiple) = unmarked(word, '*');
    Ok(Field {
        name: name_of(alloc, name)?,
        kind: kind_of(alloc, word, if is_multiple { 3 } else { 1 })?,
        required: false,
        hidden,
        unique: false,
    })
}

fn fields_of(alloc: Global, line: &str) -> Result<Seq<Field>, Trouble> {
    let mut fields = Seq::new(alloc);
    for word in line.split(' ') {
        if let Some((name, word)) = word.split_once('=') {
            fields.push(field_of(alloc, name, word)?)?;
        }
    }
    Ok(fields)
}

/// A collection whose rules are locked: its name, `base` or `auth`, and its fields.
fn collection_of(alloc: Global, line: &str) -> Result<Collection, Trouble> {
    let (name, rest) = line.split_once(' ').ok_or("no type of a collection")?;
    Ok(Collection {
        name: name_of(alloc, name)?,
        is_auth: rest.starts_with("auth"),
        fields: fields_of(alloc, rest)?,
        list_rule: Rule::Locked,
        view_rule: Rule::Locked,
        create_rule: Rule::Locked,
        update_rule: Rule::Locked,
        delete_rule: Rule::Locked,
    })
}

/// The collections of a text, one a line.
pub fn collections_of(alloc: Global, text: &str) -> Result<Vec<Collection>, Trouble> {
    let mut found = Vec::new(alloc);
    for line in text.lines() {
        found.push(collection_of(alloc, line)?)?;
    }
    Ok(found)
}
