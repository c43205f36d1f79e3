// The tree of names of an `expand` text.
ghost use Rattle.std.specs.Prelude.{◌≡◌, ◌==◌, [], ◌∷◌, ◌++◌, IfOk, List, filter_map, map, option_map};
ghost use Rattle.std.specs.BTreeMap.{is_at};
ghost use Rattle.std.specs.Cmp.Lexicographic.{slice_cmp};
ghost use Rattle.std.specs.List.{cons_option, slice_split};
ghost use Rattle.std.specs.Map.{lookup, remove_entry};
ghost use Rattle.std.specs.Option.{option_copied, option_map_or};
ghost use Rattle.std.specs.Ordering.{nat_cmp};
ghost use Rattle.pocket_expand.specs.Names.{NamePath, grouped};
ghost use Rattle.pocket_expand.specs.Names as names;

use pocket_resolve::cut_at_via;
use pocket_types::{Name, NameFault, Seq, Text, copied_items};
use std::alloc::{AllocError, Global};
use std::collections::BTreeMap;

/// So many names of a path count.
const MOST_NAMES: u32 = 6;

/// What a name may lead to from a record.
#[derive(Drop)]
pub enum Lead {
    /// To the records that its relation of this name holds.
    Forward(Name),
    /// To the records of a collection whose relation of this name holds it.
    Back(Name, Name),
}

/// A name of an `expand` text, with those that follow it.
#[cycle(branch)]
#[derive(Drop)]
pub struct Branch {
    pub name: Text,
    pub lead: Lead,
    pub below: Seq<Branch>,
}

/// The names of an `expand` text, read once for all records of a request.
#[derive(Drop)]
pub struct Names {
    pub(crate) branches: Seq<Branch>,
}

/// The names of a path, which stand between dots.
fn names_in(alloc: Global, path: &str) -> Result<Seq<Text>, AllocError>
    ensures { IfOk result (λ found. found ≡ slice_split (λ b. b == 46) path.now) }
{
    let mut found = Vec::new(alloc);
    for name in path.split('.') {
        let name = Text::from_str(alloc, name)?;
        found.push(name)?;
    }
    Ok(Seq::from_vec(found))
}

/// The paths of a text, which stand between commas.
fn paths_in(alloc: Global, text: &str) -> Result<Seq<Seq<Text>>, AllocError>
    ensures { IfOk result (λ paths. paths ≡ names.paths_in text.now) }
{
    let mut paths = Vec::new(alloc);
    for path in text.split(',') {
        let path = names_in(alloc, path)?;
        paths.push(path)?;
    }
    Ok(Seq::from_vec(paths))
}

/// What follows a name in the paths so far, taken out of them.
fn taken(groups: &mut BTreeMap<Text, Seq<Seq<Text>>>, alloc: Global, name: &Text) -> Seq<Seq<Text>>
    ensures paths { result ≡ option_map_or (λ p. p) (lookup (is_at (slice_cmp nat_cmp name.now)) groups.old.entries) [] }
    ensures rest { groups.new.entries ≡ remove_entry (is_at (slice_cmp nat_cmp name.now)) groups.old.entries }
{
    match groups.remove(name) {
        Some(paths) => paths,
        None => Seq::new(alloc),
    }
}

/// A path more among those that are grouped by their first names.
fn add_path(
    groups: &mut BTreeMap<Text, Seq<Seq<Text>>>,
    alloc: Global,
    path: &Seq<Text>,
) -> Result<(), AllocError>
    ensures { (paths : List NamePath) → groups.old.entries ≡ grouped paths → IfOk result (λ _. groups.new.entries ≡ grouped (paths ++ path.now ∷ [])) }
{
    match path.as_slice() {
        [] => Ok(()),
        [name, rest @ ..] => {
            let rest = Seq::from_vec(copied_items(alloc, rest)?);
            let mut paths = taken(groups, alloc, name);
            paths.push(rest)?;
            drop(groups.insert(name.clone()?, paths)?);
            Ok(())
        }
    }
}

/// The first names of paths, each with what follows it in the paths that begin with it.
fn groups_of(
    alloc: Global,
    paths: &[Seq<Text>],
) -> Result<BTreeMap<Text, Seq<Seq<Text>>>, AllocError>
    ensures { IfOk result (λ groups. groups.entries ≡ grouped paths.now) }
{
    let mut groups = BTreeMap::new(alloc);
    for path in paths {
        add_path(&mut groups, alloc, path)?;
    }
    Ok(groups)
}

/// A text as a name, where it is one.
fn name_in(alloc: Global, text: &str) -> Result<Option<Name>, AllocError>
    ensures { IfOk result (λ found. found ≡ names.name_in text.now) }
{
    match Name::read(alloc, text) {
        Ok(name) => Ok(Some(name)),
        Err(NameFault::BadName) => Ok(None),
        Err(NameFault::Memory) => Err(AllocError),
    }
}

/// A back relation, by its two parts.
fn back_to(alloc: Global, from: &str, field: &str) -> Result<Option<Lead>, AllocError>
    ensures { IfOk result (λ lead. lead ≡ names.back_to (from.now, field.now)) }
{
    let Some(from) = name_in(alloc, from)? else {
        return Ok(None);
    };
    match name_in(alloc, field)? {
        Some(field) => Ok(Some(Lead::Back(from, field))),
        None => Ok(None),
    }
}

/// What a name may lead to.
fn lead_of(alloc: Global, name: &str) -> Result<Option<Lead>, AllocError>
    ensures { IfOk result (λ lead. lead ≡ names.lead_of name.now) }
{
    match cut_at_via(name) {
        Some((from, field)) => back_to(alloc, from, field),
        None => match name_in(alloc, name)? {
            Some(name) => Ok(Some(Lead::Forward(name))),
            None => Ok(None),
        },
    }
}

/// Adds a name with the tree of what follows it, where it may lead anywhere.
fn push_branch(
    branches: &mut Seq<Branch>,
    alloc: Global,
    name: Text,
    below: Seq<Branch>,
) -> Result<(), AllocError>
    ensures { IfOk result (λ _. branches.new ≡ branches.old ++ cons_option (names.branch_of (λ _. below) (name, [])) []) }
{
    match lead_of(alloc, name.as_str())? {
        Some(lead) => branches.push(Branch { name, lead, below }),
        None => Ok(()),
    }
}

/// The tree of paths, of which so many names count.
#[cycle(tree)]
fn branches_of(alloc: Global, depth: u32, paths: &[Seq<Text>]) -> Result<Seq<Branch>, AllocError>
    ensures { IfOk result (λ branches. branches ≡ names.tree_of depth paths.now) }
{
    if depth == 0 {
        return Ok(Seq::new(alloc));
    }
    let groups = groups_of(alloc, paths)?;
    branches_in(alloc, depth - 1, groups)
}

/// A branch for each name that may lead anywhere, with the tree of what follows it, of which so many names count.
#[cycle(tree)]
fn branches_in(
    alloc: Global,
    depth: u32,
    groups: BTreeMap<Text, Seq<Seq<Text>>>,
) -> Result<Seq<Branch>, AllocError>
    ensures { IfOk result (λ branches. branches ≡ filter_map (names.branch_of (names.tree_of depth)) groups.entries) }
{
    let mut branches = Seq::new(alloc);
    for (name, behind) in groups {
        let below = branches_of(alloc, depth, behind.as_slice())?;
        push_branch(&mut branches, alloc, name, below)?;
    }
    Ok(branches)
}

/// The names of an `expand` text: a list of paths between commas, each with up to six names between dots.
///
/// A name that can't be that of a relation or of a back relation leads nowhere, and is left out with what follows it.
pub fn names_of(alloc: Global, text: Option<&Text>) -> Result<Names, AllocError>
    ensures { IfOk result (λ tree. tree ≡ names.names_of (option_copied text.entry)) }
{
    let Some(text) = text else {
        return Ok(Names {
            branches: Seq::new(alloc),
        });
    };
    let paths = paths_in(alloc, text.as_str())?;
    let branches = branches_of(alloc, MOST_NAMES, paths.as_slice())?;
    Ok(Names { branches })
}
