// How runs end, by the words of cases.
use pocket::RunEnd;
use pocket_cases_text::Trouble;
use pocket_types::Text;
use pocket_wire::Ended;
use std::alloc::Global;

fn session_of(word: &str) -> Option<Ended> {
    match word {
        "Done" => Some(Ended::Done),
        "Closed" => Some(Ended::Closed),
        "SourceFault" => Some(Ended::SourceFault),
        "SinkFault" => Some(Ended::SinkFault),
        "Refused" => Some(Ended::Refused(501)),
        "Truncated" => Some(Ended::Truncated),
        "Limit" => Some(Ended::Limit),
        "Memory" => Some(Ended::Memory),
        _ => None,
    }
}

fn plain_end_of(word: &str) -> Option<RunEnd> {
    match word {
        "Faults" => Some(RunEnd::Faults(3)),
        "Words" => Some(RunEnd::Words),
        "SourceFault" => Some(RunEnd::SourceFault),
        "SinkFault" => Some(RunEnd::SinkFault),
        "KeeperFault" => Some(RunEnd::KeeperFault),
        "BadInput" => Some(RunEnd::BadInput),
        "Memory" => Some(RunEnd::Memory),
        "NotEmpty" => Some(RunEnd::NotEmpty),
        _ => None,
    }
}

/// The end of `Session` and how the session ended, of `BadStore` and the key of a row, or of a word alone.
fn end_of(alloc: Global, words: &str) -> Result<RunEnd, Trouble> {
    match words.split_once(' ') {
        Some(("Session", word)) => match session_of(word) {
            Some(ended) => Ok(RunEnd::Session(ended)),
            None => Err(Trouble::Case("no end of a session")),
        },
        Some((_, key)) => Ok(RunEnd::BadStore(Text::from_str(alloc, key)?)),
        None => plain_end_of(words).ok_or(Trouble::Case("no end")),
    }
}

/// The exit status of an end, and what is said of it.
pub fn told(alloc: Global, words: &str) -> Result<String, Trouble> {
    let ended = end_of(alloc, words)?;
    Ok(format!(in alloc; "{} {ended}", ended.code())?)
}
