// What cases of a file are given, and the characters that are named in them.
use crate::trouble::Trouble;
use std::alloc::{AllocError, Global};
use std::collections::BTreeMap;

/// Texts that cases are given, by their names.
#[derive(Drop)]
pub struct Given {
    texts: BTreeMap<String, String>,
}

/// The character of a number in hexadecimal digits.
fn char_of(digits: &str) -> Option<char> {
    let number = u32::from_str_radix(digits, 16).ok()?;
    char::from_u32(number)
}

/// The character that a name stands for: one that isn't seen, or any by its number, as `U+2028`.
fn named_char(name: &str) -> Option<char> {
    match name {
        "TAB" => Some('\t'),
        "LF" => Some('\n'),
        "CR" => Some('\r'),
        "NUL" => Some('\0'),
        "SP" => Some(' '),
        _ => char_of(name.strip_prefix("U+")?),
    }
}

/// The byte that a name as `xFF` stands for.
fn named_byte(name: &str) -> Option<u8> {
    u8::from_str_radix(name.strip_prefix('x')?, 16).ok()
}

/// How many digits a mark asks for, by what follows its `#`, and the rest.
fn digits_of(piece: &str) -> (usize, &str) {
    if let Some(rest) = piece.strip_prefix("32") {
        (32, rest)
    } else if let Some(rest) = piece.strip_prefix("15") {
        (15, rest)
    } else if let Some(rest) = piece.strip_prefix('3') {
        (3, rest)
    } else {
        (0, piece)
    }
}

/// Adds a number in at least so many digits.
fn push_number(
    out: &mut String,
    alloc: Global,
    number: u32,
    digits: usize,
) -> Result<(), AllocError> {
    let number = format!(in alloc; "{number}")?;
    for _ in number.len()..digits {
        out.push('0')?;
    }
    out.push_str(number.as_str())
}

/// A text with its marks replaced by a number: `#` by its digits, `#3`, `#15` and `#32` by so many with zeros before them.
pub fn numbered(alloc: Global, text: &str, number: u32) -> Result<String, AllocError> {
    let mut found = String::new(alloc);
    let mut pieces = text.split('#');
    if let Some(first) = pieces.next() {
        found.push_str(first)?;
    }
    for piece in pieces {
        let (digits, rest) = digits_of(piece);
        push_number(&mut found, alloc, number, digits)?;
        found.push_str(rest)?;
    }
    Ok(found)
}

/// Adds a text so many times, its marks replaced by 1, 2 and so on.
fn push_times(out: &mut Vec<u8>, alloc: Global, times: u32, text: &str) -> Result<(), AllocError> {
    if !text.contains('#') {
        for _ in 0..times {
            out.extend_from_slice(text.as_bytes())?;
        }
        return Ok(());
    }
    for number in 0..times {
        let piece = numbered(alloc, text, number.saturating_add(1))?;
        out.extend_from_slice(piece.as_bytes())?;
    }
    Ok(())
}

/// Adds the bytes of a character.
fn push_char(out: &mut Vec<u8>, alloc: Global, found: char) -> Result<bool, AllocError> {
    let text = format!(in alloc; "{found}")?;
    out.extend_from_slice(text.as_bytes())?;
    Ok(true)
}

impl Given {
    pub fn new(alloc: Global) -> Given {
        Given {
            texts: BTreeMap::new(alloc),
        }
    }

    /// Gives a text to the cases that follow. It stands in place of the earlier one of its name.
    pub fn set(&mut self, name: String, text: String) -> Result<(), Trouble> {
        self.texts.insert(name, text)?;
        Ok(())
    }

    /// The text of a name, empty where none is given.
    pub fn text(&self, name: &str) -> &str {
        match self.texts.get(name) {
            Some(text) => text.as_str(),
            None => "",
        }
    }

    /// Adds what stands for a name such as `40*ab`: this text, or the given one of this name, so many times. Whether it stands for
    /// something.
    fn push_repeated(
        &self,
        out: &mut Vec<u8>,
        alloc: Global,
        name: &str,
    ) -> Result<bool, AllocError> {
        let Some((times, text)) = name.split_once('*') else {
            return Ok(false);
        };
        let Ok(times) = times.parse::<u32>() else {
            return Ok(false);
        };
        let text = self.texts.get(text).map_or(text, |given| given.as_str());
        push_times(out, alloc, times, text)?;
        Ok(true)
    }

    /// Adds what stands for a name in angle brackets: a given text, a character or a byte, or, as `40*ab`, a text so many times.
    /// Whether it stands for something.
    fn push_named(&self, out: &mut Vec<u8>, alloc: Global, name: &str) -> Result<bool, AllocError> {
        if let Some(text) = self.texts.get(name) {
            return Ok(out.extend_from_slice(text.as_bytes()).and(Ok(true))?);
        }
        if let Some(byte) = named_byte(name) {
            return Ok(out.push(byte).and(Ok(true))?);
        }
        match named_char(name) {
            Some(found) => push_char(out, alloc, found),
            None => self.push_repeated(out, alloc, name),
        }
    }

    /// Adds what follows a `<`. Brackets around what stands for nothing stay as they are.
    fn push_piece(&self, out: &mut Vec<u8>, alloc: Global, piece: &str) -> Result<(), AllocError> {
        if let Some((name, rest)) = piece.split_once('>') {
            if self.push_named(out, alloc, name)? {
                return Ok(out.extend_from_slice(rest.as_bytes())?);
            }
        }
        out.push(b'<')?;
        out.extend_from_slice(piece.as_bytes())
    }

    /// The bytes of a text in which names stand in angle brackets.
    pub fn bytes_of(&self, alloc: Global, text: &str) -> Result<Vec<u8>, AllocError> {
        let mut out = Vec::new(alloc);
        let mut pieces = text.split('<');
        if let Some(first) = pieces.next() {
            out.extend_from_slice(first.as_bytes())?;
        }
        for piece in pieces {
            self.push_piece(&mut out, alloc, piece)?;
        }
        Ok(out)
    }

    /// A text in which names stand in angle brackets.
    pub fn text_of(&self, alloc: Global, text: &str) -> Result<String, Trouble> {
        let bytes = self.bytes_of(alloc, text)?;
        match str::from_utf8(bytes.as_slice()) {
            Ok(text) => Ok(String::from_str(alloc, text)?),
            Err(_) => Err(Trouble::Case("no UTF-8")),
        }
    }
}
