// What a select and a relation hold: texts and ids.
ghost use Rattle.std.specs.Prelude.{◌≡◌, ℕ, List, map};

use pocket_types::{Id, Text};

/// An item of a cell, which stands as a text.
pub trait Item {
    ghost text: { Self → List ℕ };

    ghost texts: { List Self → List (List ℕ) };

    /// The item's text.
    fn as_str(&self) -> &str
        ensures { result.now ≡ text self.now };

    ghost texts_are: { (items : List Self) → map text items ≡ texts items };
}

impl Item for Text {
    ghost use Rattle.std.proofs.lemmas.List.{map-id};

    ghost text = { λ t. t };

    ghost texts = { λ ts. ts };

    fn as_str(&self) -> &str {
        self.as_str()
    }

    ghost texts_are = { λ ts. map-id ts };
}

impl Item for Id {
    ghost use Rattle.std.proofs.lemmas.List.{map-id};

    ghost text = { λ id. id };

    ghost texts = { λ ids. ids };

    fn as_str(&self) -> &str {
        self.as_str()
    }

    ghost texts_are = { λ ids. map-id ids };
}
