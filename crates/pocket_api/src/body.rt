ghost use Rattle.std.specs.Prelude.{◌≡◌, []};
ghost use Rattle.pocket_types.specs.Maps.{map_jv};
ghost use Rattle.pocket_types.specs.Profile.{IsProfiled};

use pocket_types::{Jv, Seq};
use std::alloc::Global;
use std::marker::Model;

/// The JSON that a request carries. Contracts see the tree. Its keys rise, no number is over 2^53 - 1 in size, and it has at most
/// 32 levels.
#[derive(Drop)]
pub struct Body {
    tree: Jv,
}

impl Model for Body {
    ghost use Rattle.std.specs.Coded.{codes};
    ghost use Rattle.pocket_types.specs.Profile.{IsProfiled};
    ghost use Rattle.pocket_types.specs.contracts.json.Jv as jv;
    ghost use Rattle.pocket_types.specs.declared.json.Jv.{Jv};

    ghost Value = { Jv };

    ghost coded = { Prim.hlevel (codes, jv.the_row.coded) };

    ghost view = { λ b. b.tree };

    ghost invariant = { λ b. IsProfiled b.tree };
}

impl Body {
    /// The body of a tree that is as `read_jv` gives them.
    pub fn new(tree: Jv) -> Body
        requires { IsProfiled tree }
        ensures { result ≡ tree }
    {
        Body { tree }
    }

    /// The body of an empty map, which takes no memory.
    pub fn empty(alloc: Global) -> Body
        ensures { result ≡ map_jv [] }
    {
        Body {
            tree: Jv::Map(Seq::new(alloc)),
        }
    }

    /// The tree, borrowed.
    pub fn tree(&self) -> &Jv
        ensures value { result.now ≡ self.now }
        ensures profile { IsProfiled self.now }
    {
        &self.tree
    }

    /// The tree, moved out.
    pub fn into_tree(self) -> Jv
        ensures value { result ≡ self }
        ensures profile { IsProfiled result }
    {
        let Body { tree } = self;
        tree
    }
}
