// Records with their expansions.
ghost use Rattle.std.specs.Prelude.{◌≡◌, ◌≤◌, IfOk, filter_map, map, option_map};
ghost use Rattle.pocket_types.specs.Callers.{is_admin};
ghost use Rattle.pocket_types.specs.Maps.{map_jv};
ghost use Rattle.pocket_types.specs.Within.{collections_of};
ghost use Rattle.pocket_ops.specs.Trees.{shown_members};
ghost use Rattle.pocket_gate.specs.Built.{rules_of};
ghost use Rattle.pocket_gate.specs.Seen.{seen_world};
ghost use Rattle.pocket_expand.specs.Expansion.{all_under, expanded_jv, expands, expansion_by, in_order, member_jv, put_expand, related_jv, shown_collection, shown_rec, with_found};
ghost use Rattle.pocket_expand.specs.Met.{member_seen};

use crate::names::{Branch, Names};
use crate::related::related_by;
use pocket_gate::Rules;
use pocket_meaning::Member;
use pocket_ops::{map_jv, put_member, shown_members};
use pocket_tables::Tables;
use pocket_types::{Ask, Collection, Jv, Rec, Seq, Steps, Text};
use std::alloc::{AllocError, Global};
use std::collections::BTreeMap;
use std::sync::ledger::Ledger;

/// A record's JSON with what was found under its names, which has the key `expand` where it isn't empty.
fn rec_with(
    alloc: Global,
    collection: &Collection,
    rec: &Rec,
    whole: bool,
    found: BTreeMap<Text, Jv>,
) -> Result<Jv, AllocError>
    ensures { IfOk result (λ tree. tree ≡ map_jv (put_expand found.entries (shown_members whole collection.now rec.now))) }
{
    let mut members = shown_members(alloc, collection, rec, whole)?;
    if !found.is_empty() {
        let expand = map_jv(alloc, found)?;
        put_member(&mut members, alloc, "expand", expand)?;
    }
    map_jv(alloc, members)
}

/// Related records as JSON, where there are any: one of a relation that holds at most one is an object, all else a list.
fn related_jv(several: bool, trees: Seq<Jv>) -> Option<Jv>
    ensures { result ≡ related_jv several trees }
{
    if several && !trees.is_empty() {
        return Some(Jv::List(trees));
    }
    trees.into_vec().into_iter().next()
}

/// What stands under a name, of the JSON of its records.
fn named(name: &Text, several: bool, trees: Seq<Jv>) -> Result<Option<(Text, Jv)>, AllocError>
    ensures { IfOk result (λ found. found ≡ option_map (λ tree. (name.now, tree)) (related_jv several trees)) }
{
    match related_jv(several, trees) {
        Some(tree) => Ok(Some((name.clone()?, tree))),
        None => Ok(None),
    }
}

/// Puts what was found under a name, where anything was.
#[tactic(auto, unfolding(pocket_types::specs::Maps::put))]
fn put_found(found: &mut BTreeMap<Text, Jv>, under: Option<(Text, Jv)>) -> Result<(), AllocError>
    ensures { IfOk result (λ _. found.new.entries ≡ with_found found.old.entries under) }
{
    if let Some((name, tree)) = under {
        drop(found.insert(name, tree)?);
    }
    Ok(())
}

/// A record with its expansion by these names.
#[cycle(walk)]
fn rec_tree<L: Ledger>(
    branches: &[Branch],
    alloc: Global,
    tables: &Tables,
    rules: &Rules,
    ask: &Ask,
    collection: &Collection,
    rec: &Rec,
    steps: &mut Steps<L>,
) -> Result<Jv, AllocError>
    requires rules { rules.now ≡ rules_of (collections_of tables.now.world) }
    ensures tree { IfOk result (λ tree. tree ≡ expanded_jv (seen_world tables.now.world ask.now) branches.now
        (shown_collection ask.now.caller collection.now) (shown_rec ask.now.caller collection.now rec.now)) }
    ensures steps { steps.old ≤ steps.new }
{
    let found = found_under(branches, alloc, tables, rules, ask, collection, rec, steps)?;
    rec_with(alloc, collection, rec, ask.caller.is_admin(), found)
}

/// What stands under these names in a record.
#[cycle(walk)]
fn found_under<L: Ledger>(
    branches: &[Branch],
    alloc: Global,
    tables: &Tables,
    rules: &Rules,
    ask: &Ask,
    collection: &Collection,
    rec: &Rec,
    steps: &mut Steps<L>,
) -> Result<BTreeMap<Text, Jv>, AllocError>
    requires rules { rules.now ≡ rules_of (collections_of tables.now.world) }
    ensures found { IfOk result (λ found. found.entries ≡ in_order (all_under (map (expands (seen_world tables.now.world ask.now)) branches.now)
        (shown_collection ask.now.caller collection.now) (shown_rec ask.now.caller collection.now rec.now))) }
    ensures steps { steps.old ≤ steps.new }
{
    let mut found = BTreeMap::new(alloc);
    for branch in branches {
        let under = under_branch(branch, alloc, tables, rules, ask, collection, rec, steps)?;
        put_found(&mut found, under)?;
    }
    Ok(found)
}

/// What stands under a name in a record, where anything does.
#[cycle(walk)]
fn under_branch<L: Ledger>(
    branch: &Branch,
    alloc: Global,
    tables: &Tables,
    rules: &Rules,
    ask: &Ask,
    collection: &Collection,
    rec: &Rec,
    steps: &mut Steps<L>,
) -> Result<Option<(Text, Jv)>, AllocError>
    requires rules { rules.now ≡ rules_of (collections_of tables.now.world) }
    ensures under { IfOk result (λ under. under ≡ expands (seen_world tables.now.world ask.now) branch.now
        (shown_collection ask.now.caller collection.now) (shown_rec ask.now.caller collection.now rec.now)) }
    ensures steps { steps.old ≤ steps.new }
{
    match related_by(
        alloc,
        tables,
        rules,
        ask,
        collection,
        rec,
        &branch.lead,
        steps,
    )? {
        Some(found) => {
            let members = found.members.as_slice();
            let below = branch.below.as_slice();
            let trees = member_trees(below, alloc, tables, rules, ask, members, steps)?;
            named(&branch.name, found.several, trees)
        }
        None => Ok(None),
    }
}

/// The JSON of a related record, with its own expansion.
#[tactic(auto, using(crate::proofs::WalkLemmas::member_is, crate::proofs::WalkLemmas::no_member))]
#[cycle(walk)]
fn member_tree<L: Ledger>(
    below: &[Branch],
    alloc: Global,
    tables: &Tables,
    rules: &Rules,
    ask: &Ask,
    member: Member<'_>,
    steps: &mut Steps<L>,
) -> Result<Option<Jv>, AllocError>
    requires rules { rules.now ≡ rules_of (collections_of tables.now.world) }
    ensures tree { IfOk result (λ tree. tree ≡ member_jv (map (expands (seen_world tables.now.world ask.now)) below.now) (member_seen (is_admin ask.now.caller) member.entry)) }
    ensures steps { steps.old ≤ steps.new }
{
    match member {
        Member::Record(collection, rec) => {
            let tree = rec_tree(below, alloc, tables, rules, ask, collection, rec, steps)?;
            Ok(Some(tree))
        }
        Member::Nobody | Member::Item(_) | Member::Sent => Ok(None),
    }
}

/// The JSON of related records, each with its own expansion.
#[cycle(walk)]
fn member_trees<L: Ledger>(
    below: &[Branch],
    alloc: Global,
    tables: &Tables,
    rules: &Rules,
    ask: &Ask,
    members: &[Member<'_>],
    steps: &mut Steps<L>,
) -> Result<Seq<Jv>, AllocError>
    requires rules { rules.now ≡ rules_of (collections_of tables.now.world) }
    ensures trees { IfOk result (λ trees. trees ≡ filter_map (member_jv (map (expands (seen_world tables.now.world ask.now)) below.now))
        (map (member_seen (is_admin ask.now.caller)) members.now)) }
    ensures steps { steps.old ≤ steps.new }
{
    let mut trees = Seq::new(alloc);
    for member in members {
        if let Some(tree) = member_tree(below, alloc, tables, rules, ask, *member, steps)? {
            trees.push(tree)?;
        }
    }
    Ok(trees)
}

/// A record's JSON as its caller sees it, with the related records that these names lead to and that the caller may view.
///
/// The record need not stand in the world, and whether the caller may view it isn't asked.
pub fn expand_names<L: Ledger>(
    alloc: Global,
    tables: &Tables,
    rules: &Rules,
    ask: &Ask,
    collection: &Collection,
    rec: &Rec,
    names: &Names,
    steps: &mut Steps<L>,
) -> Result<Jv, AllocError>
    requires rules { rules.now ≡ rules_of (collections_of tables.now.world) }
    ensures tree { IfOk result (λ tree. tree ≡ expansion_by tables.now.world ask.now collection.now rec.now names.now) }
    ensures steps { steps.old ≤ steps.new }
{
    let branches = names.branches.as_slice();
    rec_tree(branches, alloc, tables, rules, ask, collection, rec, steps)
}
