// What follows from the definitions. Each law is a function without a body.
ghost use Rattle.std.specs.Prelude.{◌≡◌, ℕ, List, map};
ghost use Rattle.std.specs.Cmp.{IsTotalOrder};
ghost use Rattle.std.specs.List.Sorted.{IsPermutation, IsSortedBy};
ghost use Rattle.std.specs.Cmp.Lexicographic.{slice_cmp};
ghost use Rattle.std.specs.Ordering.{nat_cmp};
ghost use Rattle.std.specs.declared.cmp.Ordering.TheVariants.{Equal};
ghost use Rattle.pocket_types.specs.declared.names.Name.{Name};
ghost use Rattle.pocket_types.specs.declared.records.Rec.{Rec};
ghost use Rattle.pocket_types.specs.declared.requests.Ask.{Ask};
ghost use Rattle.pocket_types.specs.declared.world.World.{World};
ghost use Rattle.pocket_read.specs.Laws.{IsNumber, IsSize, KindsAreRanked, PagesAreTheList};
ghost use Rattle.pocket_read.specs.Pages.{page_size};
ghost use Rattle.pocket_read.specs.Sorting.{key_cmp, key_of, sorted_keys, stands_before, value_cmp, values_cmp};
ghost use Rattle.pocket_read.specs.declared.keys.SortKey.{SortKey};
ghost use Rattle.pocket_read.specs.declared.terms.SortTerm.{SortTerm};

/// Pages are counted from 1, and have 1 to 500 records; 30 where none is asked for.
pub fn pages_are_clamped()
    ensures number { (asked : ℕ) → IsNumber asked }
    ensures size { (asked : ℕ) → IsSize asked }
    ensures unasked { page_size 0 ≡ 30 }
{}

/// As many pages as have room for a list show it one after another: each of its records once, and in order.
#[tactic(auto, using(crate::proofs::LawLemmas::pages_are_the_list))]
pub fn pages_are_the_list()
    ensures { PagesAreTheList }
{}

/// Nothing stands before flags, flags before numbers, and numbers before texts, whatever they are. All values stand in
/// one order.
#[tactic(auto, using(crate::proofs::LawLemmas::kinds_are_ranked, crate::proofs::Orders::value_total))]
pub fn values_are_ranked()
    ensures kinds { KindsAreRanked }
    ensures order { IsTotalOrder value_cmp }
{}

/// Where the terms tell two records not apart, the ids do, rising whichever way the terms go.
pub fn ties_go_by_id()
    ensures { (terms : List SortTerm) (a b : SortKey) → values_cmp terms a.values b.values ≡ Equal → key_cmp terms a b ≡ slice_cmp nat_cmp a.id b.id }
{}

/// A sorted list has the keys of its records, each once, and none stands before the one in front of it.
pub fn lists_are_sorted()
    ensures same { (w : World) (ask : Ask) (home : Name) (terms : List SortTerm) (recs : List Rec)
        → IsPermutation (map (key_of w ask home terms) recs) (sorted_keys w ask home terms recs) }
    ensures order { (w : World) (ask : Ask) (home : Name) (terms : List SortTerm) (recs : List Rec)
        → IsSortedBy (stands_before terms) (sorted_keys w ask home terms recs) }
{}
