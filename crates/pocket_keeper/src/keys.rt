// Keys of records' rows, taken apart.
ghost use Rattle.std.specs.Prelude.{◌≡◌, ◌≢◌, ℕ, List, ◌∷◌, ◌++◌, IsTrue, MatchOption};
ghost use Rattle.pocket_types.specs.Names.{is_id};
ghost use Rattle.pocket_keeper.specs.Texts.{HasNoByte, rec_key};

use pocket_types::Id;

/// What stands behind a literal.
fn after<'a>(text: &'a str, literal: &str) -> Option<&'a str>
    ensures { MatchOption result ((rest : List ℕ) → text.now ≢ literal.now ++ rest) (λ rest. text.now ≡ literal.now ++ rest.now) }
{
    text.strip_prefix(literal)
}

/// The collection's name and the id that a record's key has. Neither needs to be of its form.
pub fn split_rec_key(key: &str) -> Option<(&str, &str)>
    ensures { MatchOption result
        ((name id : List ℕ) → HasNoByte 47 name → key.now ≢ rec_key name id)
        (λ p. HasNoByte 47 p.0.now × (key.now ≡ rec_key p.0.now p.1.now)) }
{
    let rest = after(key, "r/")?;
    rest.split_once('/')
}

/// The id that a record's key has behind the name of its collection. None exactly where the key is of no record of that collection.
pub fn id_in_rec_key(key: &str, name: &str) -> Option<Id>
    ensures { MatchOption result
        ((id : List ℕ) → IsTrue (is_id id) → key.now ≢ rec_key name.now id)
        (λ id. IsTrue (is_id id) × (key.now ≡ rec_key name.now id)) }
{
    let Some(rest) = after(key, "r/") else {
        return None;
    };
    let Some(rest) = after(rest, name) else {
        return None;
    };
    let Some(rest) = after(rest, "/") else {
        return None;
    };
    Id::read(rest)
}
