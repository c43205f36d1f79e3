ghost use Rattle.std.specs.Prelude.{◌≡◌, ◌↔◌, false, IfOk, IsTrue};
ghost use Rattle.std.specs.List.{list_all};
ghost use Rattle.pocket_types.specs.Names.{is_name, is_word, has_via, starts_with_letter};

use crate::exact::{Exact, Faithful};
use crate::text::Text;
use std::alloc::{AllocError, Global};
use std::cmp::Ordering;
use std::error::Error;
use std::fmt;
use std::marker::Model;

/// The name of a collection or a field: 1 to 50 characters, an ASCII letter and then ASCII letters, digits and `_`,
/// without `_via_` and not ending in `_via`. Order is that of the bytes.
#[derive(Debug, Drop)]
pub struct Name {
    text: Text,
}

impl Model for Name {
    ghost use Rattle.std.specs.Prelude.{ℕ, List, IsTrue};
    ghost use Rattle.pocket_types.specs.Names.{is_name};

    ghost Value = { List ℕ };

    ghost view = { λ n. n.text };

    ghost invariant = { λ n. IsTrue (is_name n.text) };
}

/// Why a text gave no name.
#[derive(Clone, Copy, Debug)]
pub enum NameFault {
    BadName,
    Memory,
}

impl fmt::Display for NameFault {
    fn fmt<W: fmt::Write>(&self, f: &mut fmt::Formatter<W>) -> fmt::Result {
        f.write_str(match self {
            NameFault::BadName => {
                "a name is 1 to 50 letters, digits and `_`, begins with a letter, and has no `_via` before `_` or at its end"
            }
            NameFault::Memory => "out of memory",
        })
    }
}

impl Error for NameFault {}

fn is_word_byte(byte: u8) -> bool
    ensures { result ≡ is_word byte }
{
    byte.is_ascii_alphanumeric() || byte == b'_'
}

fn begins_with_letter(bytes: &[u8]) -> bool
    ensures { result ≡ starts_with_letter bytes.now }
{
    match bytes {
        [first, ..] => first.is_ascii_alphabetic(),
        [] => false,
    }
}

fn contains_via(bytes: &[u8]) -> bool
    ensures { result ≡ has_via bytes.now }
{
    match bytes {
        [] => false,
        [_, rest @ ..] => bytes.starts_with(b"_via_") || contains_via(rest),
    }
}

fn are_words(bytes: &[u8]) -> bool
    ensures { result ≡ list_all is_word bytes.now }
{
    bytes.iter().all(|byte| is_word_byte(*byte))
}

fn has_name_form(bytes: &[u8]) -> bool
    ensures { result ≡ is_name bytes.now }
{
    let letter = begins_with_letter(bytes);
    let words = are_words(bytes);
    let via = contains_via(bytes);
    let end = bytes.ends_with(b"_via");
    letter && bytes.len() <= 50 && words && !via && !end
}

impl Name {
    ghost use Rattle.pocket_types.specs.declared.names.NameFault.TheVariants.{BadName, Memory};

    /// The name that a text spells. `BadName` comes exactly where the text isn't of a name's form.
    pub fn read(alloc: Global, text: &str) -> Result<Name, NameFault>
        ensures ok { IfOk result (λ name. (name ≡ text.now) × IsTrue (is_name text.now)) }
        ensures bad { is_name text.now ≡ false ↔ (result ≡ Err BadName) }
    {
        if !has_name_form(text.as_bytes()) {
            return Err(NameFault::BadName);
        }
        match Text::from_str(alloc, text) {
            Ok(text) => Ok(Name { text }),
            Err(_) => Err(NameFault::Memory),
        }
    }

    /// The name's text.
    pub fn as_str(&self) -> &str
        ensures text { result.now ≡ self.now }
        ensures name { IsTrue (is_name self.now) }
    {
        self.text.as_str()
    }
}

impl Clone for Name {
    ghost is_clone = { λ a b. b ≡ a };

    fn clone(&self) -> Result<Name, AllocError> {
        Ok(Name {
            text: self.text.clone()?,
        })
    }
}

impl PartialEq for Name {
    ghost use Rattle.std.specs.Prelude.{◌==◌};
    ghost use Rattle.std.specs.Cmp.Lexicographic.{pointwise};
    ghost use Rattle.std.proofs.Common.{rules};
    ghost use Rattle.std.specs.Cmp.Rules.{comparing};

    ghost eq = { pointwise ◌==◌ };

    ghost laws = { Prim.search (comparing, rules) };

    fn eq(&self, other: &Name) -> bool {
        self.text == other.text
    }
}

impl Exact for Name {
    ghost use Rattle.std.proofs.Common.{rules};

    ghost eq_is_same = { Prim.search rules };
}

impl Faithful for Name {
    ghost use Rattle.std.proofs.Common.{rules};

    ghost clone_is_same = { Prim.search rules };
}

impl Eq for Name {
    ghost use Rattle.std.proofs.lemmas.Cmp.{nat_list_eq_equiv};

    ghost laws = { nat_list_eq_equiv };
}

impl PartialOrd for Name {
    ghost use Rattle.std.specs.Ordering.{nat_cmp, as_partial_cmp};
    ghost use Rattle.std.specs.Cmp.Lexicographic.{slice_cmp};
    ghost use Rattle.std.proofs.Common.{rules};
    ghost use Rattle.std.specs.Cmp.{partial_order_from_own_ties};
    ghost use Rattle.std.specs.Cmp.Rules.{comparing};

    ghost partial_cmp = { as_partial_cmp (slice_cmp nat_cmp) };

    ghost laws = { partial_order_from_own_ties (Prim.search (comparing, rules)) (Prim.search (comparing, rules)) };

    fn partial_cmp(&self, other: &Name) -> Option<Ordering> {
        Some(self.cmp(other))
    }
}

impl Ord for Name {
    ghost use Rattle.std.specs.Ordering.{nat_cmp};
    ghost use Rattle.std.specs.Cmp.Lexicographic.{slice_cmp};
    ghost use Rattle.std.proofs.Common.{rules};
    ghost use Rattle.std.specs.Cmp.Rules.{comparing};

    ghost cmp = { slice_cmp nat_cmp };

    ghost total = { Prim.search (comparing, rules) };

    ghost matches_partial_cmp = { Prim.search (comparing, rules) };

    ghost matches_eq = { Prim.search (comparing, rules) };

    fn cmp(&self, other: &Name) -> Ordering {
        self.text.cmp(&other.text)
    }
}
