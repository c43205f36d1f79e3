// Pages of lists by rule.
ghost use Rattle.std.specs.Prelude.{◌≡◌, ◌≢◌, ◌≤◌, ◌++◌, ◌∷◌, [], Err, IfOk, IfSome, Some, map};
ghost use Rattle.pocket_types.specs.Maps.{member_of};
ghost use Rattle.pocket_types.specs.Within.{collections_of};
ghost use Rattle.pocket_resolve.specs.Fields.{collection_named};
ghost use Rattle.pocket_store.specs.SoundStates.{IsSoundWorld};
ghost use Rattle.pocket_gate.specs.Built.{rules_of};
ghost use Rattle.pocket_api.specs.Refusals.{because};
ghost use Rattle.pocket_core.specs.Answers.{IsAnswer, answer_of};
ghost use Rattle.pocket_core.specs.Lists as lists;
ghost use Rattle.pocket_core.specs.Lists.{IsSmall, list_outcome, listed_outcome, read_why, verdict_why};
ghost use Rattle.pocket_core.specs.Showing.{display_of, displayed, shown_of};

use crate::refusals::refuse;
use crate::showing::{Display, display_of, display_rec};
use crate::views::printed;
use pocket_api::{ListQuery, Reply, Why};
use pocket_gate::{Rules, Verdict};
use pocket_ops::push_member;
use pocket_read::{Page, ReadFault, list};
use pocket_resolve::collection_named;
use pocket_tables::Tables;
use pocket_types::{Ask, Collection, Id, Jv, Member, Rec, Seq, Steps, Text};
use std::alloc::{AllocError, Global};
use std::sync::ledger::Ledger;

// ---- refusals

pub(crate) fn verdict_why(verdict: Verdict) -> Why
    ensures { result ≡ verdict_why verdict }
{
    match verdict {
        Verdict::Allowed => Why::Done,
        Verdict::Locked(name, action) => Why::Locked(name, action),
        Verdict::RuleFalse(name, action) => Why::RuleFalse(name, action),
    }
}

/// The refusal of a list.
fn refuse_list(alloc: Global, fault: ReadFault, at: u64) -> Result<Reply, AllocError>
    ensures reply { IfOk result (IsAnswer (answer_of at (Err (because (read_why fault))))) }
    ensures known { IfOk result (λ _. fault ≢ ReadFault.Memory) }
{
    match fault {
        ReadFault::Denied(verdict) => refuse(alloc, verdict_why(verdict), at),
        ReadFault::BadFilter(fault) => refuse(alloc, Why::BadFilter(fault), at),
        ReadFault::BadPath(fault) => refuse(alloc, Why::BadPath(fault), at),
        ReadFault::BadSort(at_term) => refuse(alloc, Why::BadSort(at_term), at),
        ReadFault::Memory => Err(AllocError),
    }
}

// ---- the JSON of a page

/// A total, or -1 where it is left out.
fn total_jv(total: Option<u64>) -> Jv
    requires { IfSome total (λ n. n ≤ 200000) }
    ensures { result ≡ lists.total_jv total }
{
    match total {
        Some(total) => Jv::Num(total as i64),
        None => Jv::Num(-1),
    }
}

/// How many pages the records of a list fill.
fn page_count(page: &Page) -> Option<u64>
    requires { IsSmall page.now }
    ensures pages { result ≡ lists.page_count page.now }
    ensures few { IfSome result (λ n. n ≤ 200000) }
{
    match page.total {
        Some(total) => Some(total.div_ceil(u64::from(page.per_page))),
        None => None,
    }
}

/// The records of a page, its number and its size.
fn front_members(alloc: Global, items: Seq<Jv>, page: &Page) -> Result<Vec<Member>, AllocError>
    ensures { IfOk result (λ members. members.items ≡ map member_of (lists.front_members items page.now)) }
{
    let mut members = Vec::new(alloc);
    push_member(&mut members, alloc, "items", Jv::List(items))?;
    push_member(&mut members, alloc, "page", Jv::Num(i64::from(page.page)))?;
    push_member(
        &mut members,
        alloc,
        "perPage",
        Jv::Num(i64::from(page.per_page)),
    )?;
    Ok(members)
}

/// The members of a page.
fn page_members(alloc: Global, items: Seq<Jv>, page: &Page) -> Result<Vec<Member>, AllocError>
    requires { IsSmall page.now }
    ensures { IfOk result (λ members. members.items ≡ map member_of (lists.page_members items page.now)) }
{
    let mut members = front_members(alloc, items, page)?;
    push_member(&mut members, alloc, "totalItems", total_jv(page.total))?;
    let pages = total_jv(page_count(page));
    push_member(&mut members, alloc, "totalPages", pages)?;
    Ok(members)
}

/// A page with the trees of its records.
fn page_jv(alloc: Global, items: Seq<Jv>, page: &Page) -> Result<Jv, AllocError>
    requires { IsSmall page.now }
    ensures { IfOk result (λ tree. tree ≡ lists.page_jv items page.now) }
{
    let members = page_members(alloc, items, page)?;
    Ok(Jv::Map(Seq::from_vec(members)))
}

/// Adds the tree of a record, as its caller is shown it.
fn push_rec<L: Ledger>(
    trees: &mut Seq<Jv>,
    alloc: Global,
    tables: &Tables,
    rules: &Rules,
    ask: &Ask,
    collection: &Collection,
    display: &Display,
    rec: &Rec,
    steps: &mut Steps<L>,
) -> Result<(), AllocError>
    requires rules { rules.now ≡ rules_of (collections_of tables.now.world) }
    requires there { collection_named (collections_of tables.now.world) collection.now.name ≡ Some collection.now }
    ensures trees { IfOk result (λ _. trees.new ≡ trees.old ++ displayed tables.now.world ask.now collection.now display.now rec.now ∷ []) }
    ensures steps { steps.old ≤ steps.new }
{
    let tree = display_rec(alloc, tables, rules, ask, collection, display, rec, steps)?;
    trees.push(tree)
}

/// The trees of the records of these ids.
fn rec_trees<L: Ledger>(
    alloc: Global,
    tables: &Tables,
    rules: &Rules,
    ask: &Ask,
    collection: &Collection,
    display: &Display,
    ids: &[Id],
    steps: &mut Steps<L>,
) -> Result<Seq<Jv>, AllocError>
    requires rules { rules.now ≡ rules_of (collections_of tables.now.world) }
    requires there { collection_named (collections_of tables.now.world) collection.now.name ≡ Some collection.now }
    ensures trees { IfOk result (λ trees. trees ≡ lists.rec_trees tables.now.world ask.now collection.now display.now ids.now) }
    ensures steps { steps.old ≤ steps.new }
{
    let mut trees = Seq::new(alloc);
    for id in ids {
        if let Some(rec) = tables.rec(&collection.name, *id, steps) {
            push_rec(
                &mut trees, alloc, tables, rules, ask, collection, display, rec, steps,
            )?;
        }
    }
    Ok(trees)
}

// ---- answers

/// The page with the trees of its records.
fn page_tree<L: Ledger>(
    alloc: Global,
    tables: &Tables,
    rules: &Rules,
    ask: &Ask,
    collection: &Collection,
    display: &Display,
    page: &Page,
    steps: &mut Steps<L>,
) -> Result<Jv, AllocError>
    requires small { IsSmall page.now }
    requires rules { rules.now ≡ rules_of (collections_of tables.now.world) }
    requires there { collection_named (collections_of tables.now.world) collection.now.name ≡ Some collection.now }
    ensures tree { IfOk result (λ tree. tree ≡ lists.page_jv (lists.rec_trees tables.now.world ask.now collection.now display.now page.now.ids) page.now) }
    ensures steps { steps.old ≤ steps.new }
{
    let ids = page.ids.as_slice();
    let items = rec_trees(alloc, tables, rules, ask, collection, display, ids, steps)?;
    page_jv(alloc, items, page)
}

/// The page as its caller is shown it. What the query asks to be shown of each record is read once.
fn show_page<L: Ledger>(
    alloc: Global,
    tables: &Tables,
    rules: &Rules,
    ask: &Ask,
    collection: &Collection,
    query: &ListQuery,
    page: &Page,
    at: u64,
    steps: &mut Steps<L>,
) -> Result<Reply, AllocError>
    requires small { IsSmall page.now }
    requires rules { rules.now ≡ rules_of (collections_of tables.now.world) }
    requires there { collection_named (collections_of tables.now.world) collection.now.name ≡ Some collection.now }
    ensures reply { IfOk result (IsAnswer (answer_of at (lists.shown_page tables.now.world ask.now collection.now (display_of (shown_of query.now)) page.now))) }
    ensures steps { steps.old ≤ steps.new }
{
    let display = display_of(alloc, query.expand.as_ref(), query.fields.as_ref())?;
    let tree = page_tree(alloc, tables, rules, ask, collection, &display, page, steps);
    drop(display);
    Ok(Reply::shown(printed(alloc, tree?)?, at))
}

/// A list of a collection.
fn answer_listed<L: Ledger>(
    alloc: Global,
    tables: &Tables,
    rules: &Rules,
    ask: &Ask,
    collection: &Collection,
    query: &ListQuery,
    at: u64,
    steps: &mut Steps<L>,
) -> Result<Reply, AllocError>
    requires sound { IsSoundWorld tables.now.world }
    requires rules { rules.now ≡ rules_of (collections_of tables.now.world) }
    requires there { collection_named (collections_of tables.now.world) collection.now.name ≡ Some collection.now }
    ensures reply { IfOk result (IsAnswer (answer_of at (listed_outcome tables.now.world ask.now query.now collection.now))) }
    ensures steps { steps.old ≤ steps.new }
{
    match list(alloc, tables, rules, ask, &collection.name, query, steps) {
        Ok(page) => show_page(
            alloc, tables, rules, ask, collection, query, &page, at, steps,
        ),
        Err(fault) => refuse_list(alloc, fault, at),
    }
}

/// A list: the collection first, then what the page of its list is.
pub(crate) fn answer_list<L: Ledger>(
    alloc: Global,
    tables: &Tables,
    rules: &Rules,
    ask: &Ask,
    name: &Text,
    query: &ListQuery,
    at: u64,
    steps: &mut Steps<L>,
) -> Result<Reply, AllocError>
    requires sound { IsSoundWorld tables.now.world }
    requires rules { rules.now ≡ rules_of (collections_of tables.now.world) }
    ensures reply { IfOk result (IsAnswer (answer_of at (list_outcome tables.now.world ask.now name.now query.now))) }
    ensures steps { steps.old ≤ steps.new }
{
    match collection_named(tables.collections(), name.as_str()) {
        Some(collection) => answer_listed(alloc, tables, rules, ask, collection, query, at, steps),
        None => refuse(alloc, Why::NoCollection, at),
    }
}
