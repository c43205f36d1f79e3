ghost use Rattle.std.specs.Prelude.{◌≡◌};
ghost use Rattle.std.specs.Option.{option_copied};
ghost use Rattle.pocket_types.specs.Kinds.{most_of, is_multiple, target_of};

use crate::names::Name;
use crate::records::Kind;

impl Kind {
    /// The most items that a field may hold: 1, but for a select and a relation.
    pub fn most(&self) -> u32
        ensures { result ≡ most_of self.now }
    {
        match self {
            Kind::Select { most, .. } | Kind::Relation { most, .. } => *most,
            _ => 1,
        }
    }

    /// Whether a field may hold several items.
    pub fn is_multiple(&self) -> bool
        ensures { result ≡ is_multiple self.now }
    {
        self.most() > 1
    }

    /// The collection that a relation leads to.
    pub fn target(&self) -> Option<&Name>
        ensures { option_copied result ≡ target_of self.now }
    {
        match self {
            Kind::Relation { target, .. } => Some(target),
            _ => None,
        }
    }
}
