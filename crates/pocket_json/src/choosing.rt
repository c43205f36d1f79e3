// Trees cut down to what a `fields` text names.
ghost use Rattle.std.specs.Prelude.{◌≡◌, ◌==◌, ◌++◌, [], IfOk, None, Some, filter_map, if◌then◌else◌, map, option_map};
ghost use Rattle.std.specs.List.{cons_option, list_any, slice_split};
ghost use Rattle.pocket_types.specs.Maps.{member_of};
ghost use Rattle.pocket_json.specs.Choosing as choosing;
ghost use Rattle.pocket_json.specs.Choosing.{lent};

use pocket_ops::copied_tree;
use pocket_types::{Jv, Member, Seq, Text};
use std::alloc::{AllocError, Global};
use std::marker::Model;

/// The paths of a `fields` text, which contracts see as lists of keys. They are read once, and cut any number of trees.
#[derive(Drop)]
pub struct FieldPaths(Seq<Seq<Text>>);

impl Model for FieldPaths {
    ghost use Rattle.std.specs.Prelude.{List};
    ghost use Rattle.pocket_json.specs.Choosing.{KeyPath};

    ghost Value = { List KeyPath };

    ghost view = { λ p. p.0 };
}

/// The keys of a path, which stand between dots.
fn keys_of(alloc: Global, path: &str) -> Result<Seq<Text>, AllocError>
    ensures { IfOk result (λ keys. keys ≡ slice_split (λ b. b == 46) path.now) }
{
    let mut keys = Vec::new(alloc);
    for key in path.split('.') {
        keys.push(Text::from_str(alloc, key)?)?;
    }
    Ok(Seq::from_vec(keys))
}

/// The paths of a text: they stand between commas, and the keys of each between dots. Spaces belong to the keys.
pub fn field_paths(alloc: Global, text: &Text) -> Result<FieldPaths, AllocError>
    ensures { IfOk result (λ paths. paths ≡ choosing.paths_of text.now) }
{
    let mut paths = Vec::new(alloc);
    for path in text.as_str().split(',') {
        paths.push(keys_of(alloc, path)?)?;
    }
    Ok(FieldPaths(Seq::from_vec(paths)))
}

impl FieldPaths {
    /// The keys of each path, borrowed.
    fn as_slices(&self, alloc: Global) -> Result<Vec<&[Text]>, AllocError>
        ensures { IfOk result (λ paths. lent paths.items ≡ self.now) }
    {
        let mut paths = Vec::new(alloc);
        for path in self.0.as_slice() {
            paths.push(path.as_slice())?;
        }
        Ok(paths)
    }
}

/// What follows a key in a path that begins with it.
fn behind_key<'p>(path: &'p [Text], key: &str) -> Option<&'p [Text]>
    ensures { option_map (λ rest. rest.now) result ≡ choosing.behind_key key.now path.now }
{
    let (first, rest) = path.split_first()?;
    if first.as_str() == key {
        Some(rest)
    } else {
        None
    }
}

/// What follows a key in each path that begins with it.
fn rests_behind<'p>(
    alloc: Global,
    paths: &[&'p [Text]],
    key: &str,
) -> Result<Vec<&'p [Text]>, AllocError>
    ensures { IfOk result (λ rests. lent rests.items ≡ choosing.rests_behind key.now (lent paths.now)) }
{
    let mut rests = Vec::new(alloc);
    for path in paths {
        if let Some(rest) = behind_key(path, key) {
            rests.push(rest)?;
        }
    }
    Ok(rests)
}

/// Whether a path has no key left.
fn has_ended(path: &[Text]) -> bool
    ensures { result ≡ choosing.has_ended path.now }
{
    path.is_empty()
}

fn one_has_ended(paths: &[&[Text]]) -> bool
    ensures { result ≡ list_any choosing.has_ended (lent paths.now) }
{
    paths.iter().any(|path| has_ended(path))
}

/// Whether a path ends with a key.
fn names_last(alloc: Global, paths: &[&[Text]], key: &str) -> Result<bool, AllocError>
    ensures { IfOk result (λ last. last ≡ choosing.names_last key.now (lent paths.now)) }
{
    let rests = rests_behind(alloc, paths, key)?;
    Ok(one_has_ended(rests.as_slice()))
}

/// A tree cut down to what paths choose.
#[cycle(choose)]
fn cut(alloc: Global, tree: &Jv, paths: &[&[Text]]) -> Result<Jv, AllocError>
    ensures { IfOk result (λ cut. cut ≡ choosing.choose_paths tree.now (lent paths.now)) }
{
    match tree {
        Jv::List(items) => Ok(Jv::List(cut_items(alloc, items, paths)?)),
        Jv::Map(members) => Ok(Jv::Map(cut_members(alloc, members, paths)?)),
        _ => copied_tree(alloc, tree),
    }
}

#[cycle(choose)]
fn cut_items(alloc: Global, items: &Seq<Jv>, paths: &[&[Text]]) -> Result<Seq<Jv>, AllocError>
    ensures { IfOk result (λ kept. kept ≡ map (λ item. choosing.choose_paths item (lent paths.now)) items.now) }
{
    let mut kept = Seq::new(alloc);
    for item in items.as_slice() {
        kept.push(cut(alloc, item, paths)?)?;
    }
    Ok(kept)
}

/// Adds a key with what is kept of its value, where anything is.
fn push_kept(kept: &mut Seq<Member>, key: &Text, value: Option<Jv>) -> Result<(), AllocError>
    ensures { IfOk result (λ _. kept.new ≡ kept.old ++ map member_of (cons_option (option_map (λ v. (key.now, v)) value) [])) }
{
    let Some(value) = value else {
        return Ok(());
    };
    let key = key.clone()?;
    kept.push(Member { key, value })
}

#[cycle(choose)]
fn cut_members(
    alloc: Global,
    members: &Seq<Member>,
    paths: &[&[Text]],
) -> Result<Seq<Member>, AllocError>
    ensures { IfOk result (λ kept. kept
        ≡ map member_of (filter_map (choosing.kept_member (lent paths.now)) (map choosing.cuts_of_member members.now))) }
{
    let star = names_last(alloc, paths, "*")?;
    let mut kept = Seq::new(alloc);
    for member in members.as_slice() {
        let value = kept_value(alloc, member, paths, star)?;
        push_kept(&mut kept, &member.key, value)?;
    }
    Ok(kept)
}

/// A copy of a tree, where it is kept.
fn copied_if(alloc: Global, is_kept: bool, tree: &Jv) -> Result<Option<Jv>, AllocError>
    ensures { IfOk result (λ copy. copy ≡ if is_kept then Some tree.now else None) }
{
    if is_kept {
        Ok(Some(copied_tree(alloc, tree)?))
    } else {
        Ok(None)
    }
}

/// What paths keep of a member's value, with `*` among them or not.
#[cycle(choose)]
fn kept_value(
    alloc: Global,
    member: &Member,
    paths: &[&[Text]],
    star: bool,
) -> Result<Option<Jv>, AllocError>
    ensures { IfOk result (λ kept. kept
        ≡ choosing.kept_value star (choosing.rests_behind member.now.key (lent paths.now)) (choosing.cuts member.now.value)) }
{
    let rests = rests_behind(alloc, paths, member.key.as_str())?;
    if rests.is_empty() {
        return copied_if(alloc, star, &member.value);
    }
    if one_has_ended(rests.as_slice()) {
        return Ok(Some(copied_tree(alloc, &member.value)?));
    }
    Ok(Some(cut(alloc, &member.value, rests.as_slice())?))
}

/// A tree cut down to what paths choose.
pub fn choose_paths(alloc: Global, value: &Jv, paths: &FieldPaths) -> Result<Jv, AllocError>
    ensures { IfOk result (λ tree. tree ≡ choosing.choose_paths value.now paths.now) }
{
    let paths = paths.as_slices(alloc)?;
    cut(alloc, value, paths.as_slice())
}

/// A tree cut down to what a text names. Where one text cuts many trees, `field_paths` reads it once.
pub fn choose(alloc: Global, value: &Jv, fields: &Text) -> Result<Jv, AllocError>
    ensures { IfOk result (λ tree. tree ≡ choosing.choose value.now fields.now) }
{
    let paths = field_paths(alloc, fields)?;
    choose_paths(alloc, value, &paths)
}
