ghost use Rattle.std.specs.Prelude.{◌≡◌, ◌<◌, ◌%◌, false, slice_index, IsTrue, MatchOption};
ghost use Rattle.std.specs.List.{list_all};
ghost use Rattle.pocket_types.specs.Names.{is_id, is_id_byte, id_letter, made_id};

use crate::exact::{Exact, Faithful};
use std::marker::Model;

/// The id of a record: 15 bytes of `a-z0-9`. Order is that of the bytes.
#[derive(Clone, Copy, PartialEq, Eq, PartialOrd, Ord)]
pub struct Id {
    bytes: [u8; 15],
}

impl Model for Id {
    ghost use Rattle.std.specs.Prelude.{ℕ, List, IsTrue};
    ghost use Rattle.pocket_types.specs.Names.{is_id};

    ghost Value = { List ℕ };

    ghost view = { λ i. i.bytes };

    ghost invariant = { λ i. IsTrue (is_id i.bytes) };

    ghost inverse = { λ d. record { bytes = d } };
}

fn is_id_char(byte: u8) -> bool
    ensures { result ≡ is_id_byte byte }
{
    byte.is_ascii_digit() || byte.is_ascii_lowercase()
}

fn are_id_chars(bytes: &[u8]) -> bool
    ensures { result ≡ list_all is_id_byte bytes.now }
{
    bytes.iter().all(|byte| is_id_char(*byte))
}

fn has_id_form(bytes: &[u8]) -> bool
    ensures { result ≡ is_id bytes.now }
{
    let chars = are_id_chars(bytes);
    bytes.len() == 15 && chars
}

/// The character of the alphabet with this number.
fn id_char(number: u8) -> u8
    requires { number < 36 }
    ensures letter { result ≡ id_letter number }
    ensures form { IsTrue (is_id_byte result) }
{
    if number < 26 {
        b'a' + number
    } else {
        b'0' + (number - 26)
    }
}

/// The character of a word's lowest digit of base 36.
fn low_char(word: u64) -> u8
    ensures letter { result ≡ id_letter (word % 36) }
    ensures form { IsTrue (is_id_byte result) }
{
    id_char((word % 36) as u8)
}

impl Id {
    /// The id that a text spells. None exactly where the text isn't of an id's form.
    pub fn read(text: &str) -> Option<Id>
        ensures { MatchOption result (is_id text.now ≡ false) (λ id. (id ≡ text.now) × IsTrue (is_id text.now)) }
    {
        if !has_id_form(text.as_bytes()) {
            return None;
        }
        match <[u8; 15]>::try_from(text.as_bytes()) {
            Ok(bytes) => Some(Id { bytes }),
            Err(_) => None,
        }
    }

    /// The id that two random words make: eight digits of base 36 of the first, then seven of the second, the lowest first,
    /// in the alphabet `a` to `z`, `0` to `9`.
    pub fn made(words: [u64; 2]) -> Id
        ensures { result ≡ made_id (slice_index words 0) (slice_index words 1) }
    {
        let a0 = words[0];
        let a1 = a0 / 36;
        let a2 = a1 / 36;
        let a3 = a2 / 36;
        let a4 = a3 / 36;
        let a5 = a4 / 36;
        let a6 = a5 / 36;
        let a7 = a6 / 36;
        let b0 = words[1];
        let b1 = b0 / 36;
        let b2 = b1 / 36;
        let b3 = b2 / 36;
        let b4 = b3 / 36;
        let b5 = b4 / 36;
        let b6 = b5 / 36;
        Id {
            bytes: [
                low_char(a0),
                low_char(a1),
                low_char(a2),
                low_char(a3),
                low_char(a4),
                low_char(a5),
                low_char(a6),
                low_char(a7),
                low_char(b0),
                low_char(b1),
                low_char(b2),
                low_char(b3),
                low_char(b4),
                low_char(b5),
                low_char(b6),
            ],
        }
    }

    /// The id's bytes.
    pub fn bytes(&self) -> [u8; 15]
        ensures { result ≡ self.now }
    {
        self.bytes
    }

    /// The id's text.
    pub fn as_str(&self) -> &str
        ensures { result.now ≡ self.now }
    {
        match str::from_utf8(&self.bytes) {
            Ok(text) => text,
            Err(_) => "",
        }
    }
}

impl Exact for Id {
    ghost use Rattle.std.proofs.Common.{rules};

    ghost eq_is_same = { Prim.search rules };
}

impl Faithful for Id {
    ghost use Rattle.std.proofs.Common.{rules};

    ghost clone_is_same = { Prim.search rules };
}
