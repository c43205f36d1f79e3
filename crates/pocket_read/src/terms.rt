// The terms of a sort.
ghost use Rattle.std.specs.Prelude.{◌≡◌, ◌≢◌, ◌≤◌, ◌<◌, ◌==◌, Err, IfOk, Ok, fold, map, option_map, reverse, vec_len};
ghost use Rattle.std.specs.List.{slice_split};
ghost use Rattle.std.specs.Option.{option_copied};
ghost use Rattle.std.specs.Result.{result_ok};
ghost use Rattle.pocket_types.specs.declared.faults.ResolveFault.TheVariants as faults;
ghost use Rattle.pocket_resolve.specs.Fields as fields;
ghost use Rattle.pocket_resolve.specs.Filters.{home_of, resolution};
ghost use Rattle.pocket_read.specs.Answers.{Gives, GivesAs};
ghost use Rattle.pocket_read.specs.Terms as terms;

use crate::faults::ReadFault;
use pocket_gate::collection_named;
use pocket_resolve::{Purpose, resolve};
use pocket_types::{
    Collection, Expr, Field, Leaf, Name, Op, Operand, Part, Prefix, ResolveFault, Resolved, Seq,
    Step, Text,
};
use std::alloc::{AllocError, Global};

const MAX_TERMS: usize = 8;

/// What a list is sorted by: a field at the end of a path over relations of at most one record.
#[derive(Drop)]
pub struct SortTerm {
    pub path: Prefix,
    pub field: Name,
    /// Whether the greatest value comes first.
    pub falling: bool,
}

/// What follows a character of ASCII, where a text begins with it.
fn behind(text: &str, first: char) -> Option<&str>
    requires { first < 128 }
    ensures { option_map (λ rest. rest.now) result ≡ terms.behind_byte first text.now }
{
    text.strip_prefix(first)
}

/// A text without the spaces at its front.
fn unindented(text: &str) -> &str
    ensures { result.now ≡ terms.unindented text.now }
{
    let mut rest = text;
    while let Some(shorter) = behind(rest, ' ') {
        rest = shorter;
    }
    rest
}

/// What stands before a space at the end of a text, where one stands there.
fn before_space(text: &str) -> Option<&str>
    ensures { option_map (λ rest. reverse rest.now) result ≡ terms.behind_byte 32 (reverse text.now) }
{
    text.strip_suffix(' ')
}

/// A text without the spaces at its end.
fn unindented_behind(text: &str) -> &str
    ensures { result.now ≡ reverse (terms.unindented (reverse text.now)) }
{
    let mut rest = text;
    while let Some(shorter) = before_space(rest) {
        rest = shorter;
    }
    rest
}

/// A text without the spaces at both ends.
fn trimmed(text: &str) -> &str
    ensures { result.now ≡ terms.trimmed text.now }
{
    unindented_behind(unindented(text))
}

fn is_literal(text: &str) -> bool
    ensures { result ≡ terms.is_literal text.now }
{
    text == "true" || text == "false" || text == "null"
}

fn part_named(alloc: Global, name: &str) -> Result<Part, AllocError>
    ensures { IfOk result (λ part. part ≡ terms.part_named name.now) }
{
    let name = Text::from_str(alloc, name)?;
    Ok(Part { name, suffix: None })
}

/// The parts of a path, which stand between dots.
fn parts_of(alloc: Global, path: &str) -> Result<Seq<Part>, AllocError>
    ensures { IfOk result (λ parts. parts ≡ map terms.part_named (slice_split (λ b. b == 46) path.now)) }
{
    let mut parts = Vec::new(alloc);
    for name in path.split('.') {
        let part = part_named(alloc, name)?;
        parts.push(part)?;
    }
    Ok(Seq::from_vec(parts))
}

/// A comparison that asks of a path alone.
fn asking_of(alloc: Global, path: &str) -> Result<Expr, AllocError>
    ensures { IfOk result (λ tree. tree ≡ terms.asking_of (terms.path_of path.now)) }
{
    let parts = parts_of(alloc, path)?;
    Ok(Expr::Test {
        left: Operand::Ident { sign: false, parts },
        any: false,
        op: Op::Eq,
        right: Operand::Null,
    })
}

fn field_named<'a>(collection: &'a Collection, name: &Name) -> Option<&'a Field>
    ensures { option_copied result ≡ fields.field_named collection.now name.now }
{
    collection.fields.iter().find(|field| field.name == *name)
}

/// The field of a step, where it goes forward from a collection.
fn step_field<'a>(here: Option<&'a Collection>, step: &Step) -> Option<&'a Field>
    ensures { option_copied result ≡ terms.step_field (option_copied here.entry) step.now }
{
    match step {
        Step::Forward(name) => match here {
            Some(collection) => field_named(collection, name),
            None => None,
        },
        _ => None,
    }
}

fn is_single_relation(field: &Field) -> bool
    ensures { result ≡ terms.is_single_relation field.now }
{
    match field.kind.target() {
        Some(_) => !field.kind.is_multiple(),
        None => false,
    }
}

/// The collection that a field leads to.
fn field_target<'a>(collections: &'a [Collection], field: &Field) -> Option<&'a Collection>
    ensures { option_copied result ≡ terms.field_target collections.now field.now }
{
    match field.kind.target() {
        Some(name) => collection_named(collections, name),
        None => None,
    }
}

/// Whether each step, the first from this collection, goes over a relation of at most one record.
fn are_single(collections: &[Collection], here: Option<&Collection>, steps: &[Step]) -> bool
    ensures { result ≡ terms.are_single collections.now (option_copied here.entry) steps.now }
{
    match steps {
        [] => true,
        [step, rest @ ..] => match step_field(here, step) {
            Some(field) => {
                let single = is_single_relation(field);
                single && are_single(collections, field_target(collections, field), rest)
            }
            None => false,
        },
    }
}

fn home(purpose: &Purpose) -> &Name
    ensures { result.now ≡ home_of purpose.now }
{
    match purpose {
        Purpose::RuleOf(home) => home,
        Purpose::ClientOf { home, .. } => home,
    }
}

/// The term of a path to a field, where a list can be sorted by it.
fn path_to(
    collections: &[Collection],
    purpose: &Purpose,
    falling: bool,
    path: Prefix,
    field: Name,
) -> Option<SortTerm>
    ensures { result ≡ terms.term_to collections.now purpose.now falling path field }
{
    let here = collection_named(collections, home(purpose));
    if are_single(collections, here, path.steps.as_slice()) {
        Some(SortTerm {
            path,
            field,
            falling,
        })
    } else {
        None
    }
}

/// The term that a side of a comparison is.
fn side_term(
    collections: &[Collection],
    purpose: &Purpose,
    falling: bool,
    side: Leaf,
) -> Option<SortTerm>
    ensures { result ≡ terms.side_term collections.now purpose.now falling side }
{
    match side {
        Leaf::Of {
            prefix,
            field,
            modifier: _,
        } => path_to(collections, purpose, falling, prefix, field),
        _ => None,
    }
}

/// The term that a comparison's left side is.
fn test_term(
    collections: &[Collection],
    purpose: &Purpose,
    falling: bool,
    filter: Resolved,
) -> Option<SortTerm>
    ensures { result ≡ terms.test_term collections.now purpose.now falling filter }
{
    match filter {
        Resolved::Test { left, .. } => side_term(collections, purpose, falling, left),
        _ => None,
    }
}

/// The term of a comparison that was resolved or not.
fn term_found(
    collections: &[Collection],
    purpose: &Purpose,
    falling: bool,
    found: Result<Resolved, ResolveFault>,
) -> Result<Option<SortTerm>, AllocError>
    ensures term { IfOk result (λ term. term ≡ terms.found_term collections.now purpose.now falling (result_ok found)) }
    ensures known { IfOk result (λ _. found ≢ Err faults.Memory) }
{
    match found {
        Ok(filter) => Ok(test_term(collections, purpose, falling, filter)),
        Err(ResolveFault::Memory) => Err(AllocError),
        Err(_) => Ok(None),
    }
}

/// The term of a path.
#[tactic(auto, unfolding(crate::specs::Terms::path_term))]
fn path_term(
    alloc: Global,
    collections: &[Collection],
    purpose: &Purpose,
    falling: bool,
    path: &str,
) -> Result<Option<SortTerm>, AllocError>
    ensures { IfOk result (λ term. term ≡ terms.path_term collections.now purpose.now falling path.now) }
{
    if is_literal(path) {
        return Ok(None);
    }
    let tree = asking_of(alloc, path)?;
    let found = resolve(alloc, collections, purpose, &tree);
    drop(tree);
    term_found(collections, purpose, falling, found)
}

/// The term of a path behind at most one sign.
fn signed_term(
    alloc: Global,
    collections: &[Collection],
    purpose: &Purpose,
    text: &str,
) -> Result<Option<SortTerm>, AllocError>
    ensures { IfOk result (λ term. term ≡ terms.signed_term collections.now purpose.now text.now) }
{
    if let Some(path) = behind(text, '-') {
        return path_term(alloc, collections, purpose, true, path);
    }
    let path = behind(text, '+').unwrap_or(text);
    path_term(alloc, collections, purpose, false, path)
}

/// The term of a number, counted from 0.
#[tactic(auto, unfolding(crate::specs::Terms::term_at))]
fn term_at(
    alloc: Global,
    collections: &[Collection],
    purpose: &Purpose,
    number: usize,
    text: &str,
) -> Result<SortTerm, ReadFault>
    requires { number ≤ 8 }
    ensures term { Gives result (terms.term_at collections.now purpose.now number text.now) }
    ensures few { IfOk result (λ _. number < 8) }
{
    if number >= MAX_TERMS {
        return Err(ReadFault::BadSort(number as u32));
    }
    match signed_term(alloc, collections, purpose, trimmed(text))? {
        Some(term) => Ok(term),
        None => Err(ReadFault::BadSort(number as u32)),
    }
}

/// One term more, behind those that were found.
fn with_term(
    alloc: Global,
    collections: &[Collection],
    purpose: &Purpose,
    mut found: Vec<SortTerm>,
    text: &str,
) -> Result<Vec<SortTerm>, ReadFault>
    requires { vec_len found ≤ 8 }
    ensures terms { GivesAs (λ more. more.items) result (terms.with_term collections.now purpose.now (Ok found.items) text.now) }
    ensures few { IfOk result (λ more. vec_len more ≤ 8) }
{
    let term = term_at(alloc, collections, purpose, found.len(), text)?;
    found.push(term)?;
    Ok(found)
}

/// The terms of these texts, behind those that were found.
fn with_terms(
    alloc: Global,
    collections: &[Collection],
    purpose: &Purpose,
    found: Vec<SortTerm>,
    texts: &[&str],
) -> Result<Vec<SortTerm>, ReadFault>
    requires { vec_len found ≤ 8 }
    ensures { GivesAs (λ more. more.items) result (fold (terms.with_term collections.now purpose.now) (Ok found.items) (map (λ text. text.now) texts.now)) }
{
    match texts {
        [] => Ok(found),
        [text, rest @ ..] => match with_term(alloc, collections, purpose, found, text) {
            Ok(found) => with_terms(alloc, collections, purpose, found, rest),
            Err(fault) => Err(fault),
        },
    }
}

/// What stands between commas.
fn split_at_commas(alloc: Global, text: &str) -> Result<Vec<&str>, AllocError>
    ensures { IfOk result (λ texts. map (λ piece. piece.now) texts.items ≡ slice_split (λ b. b == 44) text.now) }
{
    let mut texts = Vec::new(alloc);
    for piece in text.split(',') {
        texts.push(piece)?;
    }
    Ok(texts)
}

/// The terms of a sort's text.
fn terms_of_text(
    alloc: Global,
    collections: &[Collection],
    purpose: &Purpose,
    text: &str,
) -> Result<Vec<SortTerm>, ReadFault>
    ensures { GivesAs (λ found. found.items) result (terms.terms_of_text collections.now purpose.now text.now) }
{
    let texts = split_at_commas(alloc, text)?;
    with_terms(
        alloc,
        collections,
        purpose,
        Vec::new(alloc),
        texts.as_slice(),
    )
}

/// The terms of a client's sort, where it sent one.
pub fn client_terms(
    alloc: Global,
    collections: &[Collection],
    purpose: &Purpose,
    text: Option<&Text>,
) -> Result<Vec<SortTerm>, ReadFault>
    ensures { GivesAs (λ found. found.items) result (terms.sort_terms collections.now purpose.now (option_copied text.entry)) }
{
    match text {
        Some(text) => terms_of_text(alloc, collections, purpose, text.as_str()),
        None => Ok(Vec::new(alloc)),
    }
}
