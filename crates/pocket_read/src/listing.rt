// Lists: which records a query asks for, and the page of them.
ghost use Rattle.std.specs.Prelude.{◌≡◌, ◌≢◌, ◌≤◌, IfOk, IfSome, IsSome, Some, map};
ghost use Rattle.std.specs.Option.{option_copied};
ghost use Rattle.pocket_types.specs.Within.{collections_of};
ghost use Rattle.pocket_types.specs.declared.requests.Action.TheVariants as action;
ghost use Rattle.pocket_resolve.specs.Fields as fields;
ghost use Rattle.pocket_types.specs.Order.{Rises};
ghost use Rattle.pocket_tables.specs.Worlds.{IsTabled, id_of};
ghost use Rattle.pocket_gate.specs.Built.{rules_of};
ghost use Rattle.pocket_gate.specs.declared.verdict.Verdict.TheVariants.{Locked};
ghost use Rattle.pocket_read.specs.Answers.{Gives, GivesAs};
ghost use Rattle.pocket_read.specs.Filtering as filtering;
ghost use Rattle.pocket_read.specs.Pages.{is_wanted, matched, page_in, page_of, search_of, searched, unlocked_page};
ghost use Rattle.pocket_read.specs.Sorting.{sorted_ids};
ghost use Rattle.pocket_read.specs.Sorting as sorting;
ghost use Rattle.pocket_read.specs.declared.faults.ReadFault.TheVariants as fault;

use crate::faults::ReadFault;
use crate::filters::{client_plan, does_pass};
use crate::keys::{SortKey, key_of};
use crate::order::sort_keys;
use crate::page::{Page, page_of_keys, page_of_recs};
use crate::terms::{SortTerm, client_terms};
use pocket_api::ListQuery;
use pocket_gate::{Rules, Verdict, collection_named, is_locked_for};
use pocket_plan::Plan;
use pocket_resolve::Purpose;
use pocket_tables::Tables;
use pocket_types::{Action, Ask, Caller, Collection, Name, Rec, Rule, Steps};
use std::alloc::{AllocError, Global};
use std::sync::ledger::Ledger;

/// What a query asks for: a filter, and terms to sort by.
#[derive(Drop)]
pub struct Search {
    pub plan: Option<Plan>,
    pub terms: Vec<SortTerm>,
}

/// The refusal of a locked list.
fn locked(name: &Name) -> ReadFault
    ensures { result ≢ fault.Memory → result ≡ fault.Denied (Locked name.now action.List) }
{
    match name.clone() {
        Ok(name) => ReadFault::Denied(Verdict::Locked(name, Action::List)),
        Err(_) => ReadFault::Memory,
    }
}

/// What the texts of a query are resolved for.
fn client_of(caller: &Caller, home: &Name) -> Result<Purpose, AllocError>
    ensures { IfOk result (λ purpose. purpose ≡ filtering.client_of caller.now home.now) }
{
    Ok(Purpose::ClientOf {
        home: home.clone()?,
        admin: caller.is_admin(),
    })
}

/// What a query asks for, its texts resolved: the filter first.
#[tactic(auto, unfolding(crate::specs::Pages::search_of))]
fn search_for(
    alloc: Global,
    collections: &[Collection],
    purpose: &Purpose,
    query: &ListQuery,
) -> Result<Search, ReadFault>
    ensures { GivesAs (λ search. (search.plan, search.terms.items)) result (search_of collections.now purpose.now query.now) }
{
    let plan = client_plan(alloc, collections, purpose, query.filter.as_ref())?;
    match client_terms(alloc, collections, purpose, query.sort.as_ref()) {
        Ok(terms) => Ok(Search { plan, terms }),
        Err(fault) => Err(fault),
    }
}

/// Whether a record is listed, and passes the client's filter.
fn does_match<L: Ledger>(
    alloc: Global,
    tables: &Tables,
    rules: &Rules,
    ask: &Ask,
    collection: &Collection,
    plan: Option<&Plan>,
    rec: &Rec,
    steps: &mut Steps<L>,
) -> Result<bool, AllocError>
    requires rules { rules.now ≡ rules_of (collections_of tables.now.world) }
    requires there { fields.collection_named (collections_of tables.now.world) collection.now.name ≡ Some collection.now }
    ensures matches { IfOk result (λ b. b ≡ is_wanted tables.now.world ask.now collection.now (option_copied plan.entry) rec.now) }
    ensures steps { steps.old ≤ steps.new }
{
    let name = &collection.name;
    match rules.may(alloc, tables, ask, Action::List, name, rec, steps)? {
        Verdict::Allowed => does_pass(alloc, tables, rules, ask, name, plan, rec, steps),
        _ => Ok(false),
    }
}

/// The records that are listed and pass the client's filter, by id. Each record of the collection is read once.
fn recs_matched<'a, L: Ledger>(
    alloc: Global,
    tables: &'a Tables,
    rules: &Rules,
    ask: &Ask,
    collection: &Collection,
    plan: Option<&Plan>,
    steps: &mut Steps<L>,
) -> Result<Vec<&'a Rec>, AllocError>
    requires tabled { IsTabled tables.now.world }
    requires rules { rules.now ≡ rules_of (collections_of tables.now.world) }
    requires there { fields.collection_named (collections_of tables.now.world) collection.now.name ≡ Some collection.now }
    ensures recs { IfOk result (λ recs. map (λ r. r.now) recs.items ≡ matched tables.now.world ask.now collection.now (option_copied plan.entry)) }
    ensures steps { steps.old ≤ steps.new }
{
    let mut recs = Vec::new(alloc);
    let mut after = None;
    while let Some(rec) = tables.rec_after(&collection.name, after, steps) {
        if does_match(alloc, tables, rules, ask, collection, plan, rec, steps)? {
            recs.push(rec)?;
        }
        after = Some(rec.id);
    }
    Ok(recs)
}

/// What each record is sorted by, in the order of the terms.
fn sorted_keys<L: Ledger>(
    alloc: Global,
    tables: &Tables,
    rules: &Rules,
    ask: &Ask,
    collection: &Collection,
    recs: &[&Rec],
    terms: &[SortTerm],
    steps: &mut Steps<L>,
) -> Result<Vec<SortKey>, AllocError>
    requires rules { rules.now ≡ rules_of (collections_of tables.now.world) }
    requires there { fields.collection_named (collections_of tables.now.world) collection.now.name ≡ Some collection.now }
    ensures keys { IfOk result (λ keys. keys.items ≡ sorting.sorted_keys tables.now.world ask.now collection.now.name terms.now (map (λ r. r.now) recs.now)) }
    ensures steps { steps.old ≤ steps.new }
{
    let mut keys = Vec::new(alloc);
    for rec in recs {
        let key = key_of(alloc, tables, rules, ask, collection, rec, terms, steps)?;
        keys.push(key)?;
    }
    sort_keys(terms, &mut keys)?;
    Ok(keys)
}

/// The page of records that rise by id. Without terms they stand in order.
fn page_of_matched<L: Ledger>(
    alloc: Global,
    tables: &Tables,
    rules: &Rules,
    ask: &Ask,
    collection: &Collection,
    recs: &[&Rec],
    terms: &[SortTerm],
    query: &ListQuery,
    steps: &mut Steps<L>,
) -> Result<Page, AllocError>
    requires rules { rules.now ≡ rules_of (collections_of tables.now.world) }
    requires there { fields.collection_named (collections_of tables.now.world) collection.now.name ≡ Some collection.now }
    requires rising { Rises id_of (map (λ r. r.now) recs.now) }
    ensures page { IfOk result (λ page. page ≡ page_in (sorted_ids tables.now.world ask.now collection.now.name terms.now (map (λ r. r.now) recs.now)) query.now) }
    ensures steps { steps.old ≤ steps.new }
{
    if terms.is_empty() {
        return page_of_recs(alloc, recs, query);
    }
    let keys = sorted_keys(alloc, tables, rules, ask, collection, recs, terms, steps)?;
    page_of_keys(alloc, keys.as_slice(), query)
}

/// The page of what a query asks for.
#[tactic(auto, using(crate::proofs::PageLemmas::matched_rise))]
fn page_of_search<L: Ledger>(
    alloc: Global,
    tables: &Tables,
    rules: &Rules,
    ask: &Ask,
    collection: &Collection,
    search: &Search,
    query: &ListQuery,
    steps: &mut Steps<L>,
) -> Result<Page, AllocError>
    requires tabled { IsTabled tables.now.world }
    requires rules { rules.now ≡ rules_of (collections_of tables.now.world) }
    requires there { fields.collection_named (collections_of tables.now.world) collection.now.name ≡ Some collection.now }
    ensures page { IfOk result (λ page. page ≡ searched tables.now.world ask.now collection.now query.now (search.now.plan, search.now.terms.items)) }
    ensures steps { steps.old ≤ steps.new }
{
    let plan = search.plan.as_ref();
    let recs = recs_matched(alloc, tables, rules, ask, collection, plan, steps)?;
    page_of_matched(
        alloc,
        tables,
        rules,
        ask,
        collection,
        recs.as_slice(),
        search.terms.as_slice(),
        query,
        steps,
    )
}

/// A list that isn't locked.
fn list_open<L: Ledger>(
    alloc: Global,
    tables: &Tables,
    rules: &Rules,
    ask: &Ask,
    collection: &Collection,
    query: &ListQuery,
    steps: &mut Steps<L>,
) -> Result<Page, ReadFault>
    requires tabled { IsTabled tables.now.world }
    requires rules { rules.now ≡ rules_of (collections_of tables.now.world) }
    requires there { fields.collection_named (collections_of tables.now.world) collection.now.name ≡ Some collection.now }
    ensures page { Gives result (unlocked_page tables.now.world ask.now collection.now query.now) }
    ensures steps { steps.old ≤ steps.new }
{
    let purpose = client_of(&ask.caller, &collection.name)?;
    let search = search_for(alloc, tables.collections(), &purpose, query);
    drop(purpose);
    let search = search?;
    Ok(page_of_search(alloc, tables, rules, ask, collection, &search, query, steps)?)
}

/// A list of a collection.
#[tactic(auto, unfolding(crate::specs::Pages::page_of))]
fn list_of<L: Ledger>(
    alloc: Global,
    tables: &Tables,
    rules: &Rules,
    ask: &Ask,
    collection: &Collection,
    query: &ListQuery,
    steps: &mut Steps<L>,
) -> Result<Page, ReadFault>
    requires tabled { IsTabled tables.now.world }
    requires rules { rules.now ≡ rules_of (collections_of tables.now.world) }
    requires there { fields.collection_named (collections_of tables.now.world) collection.now.name ≡ Some collection.now }
    ensures page { Gives result (page_of tables.now.world ask.now collection.now query.now) }
    ensures steps { steps.old ≤ steps.new }
{
    if is_locked_for(&ask.caller, &collection.list_rule) {
        return Err(locked(&collection.name));
    }
    list_open(alloc, tables, rules, ask, collection, query, steps)
}

/// The page of a collection's list that a query asks for: its records' ids, its number and size as they count, and how many records
/// there are.
///
/// Of what is done for it the clause on steps says only that their count doesn't fall. It is seen in the code that each record is read
/// once, by id, and asked of the list rule, that the client's filter is asked of those that it admits, and that a key is made of each
/// record that passes where there is something to sort by.
pub fn list<L: Ledger>(
    alloc: Global,
    tables: &Tables,
    rules: &Rules,
    ask: &Ask,
    collection: &Name,
    query: &ListQuery,
    steps: &mut Steps<L>,
) -> Result<Page, ReadFault>
    requires rules { rules.now ≡ rules_of (collections_of tables.now.world) }
    requires there { IsSome (fields.collection_named (collections_of tables.now.world) collection.now) }

    // The page is the definition's, or the first cause why there is none; memory may be wanting.
    ensures page { IfSome (fields.collection_named (collections_of tables.now.world) collection.now)
        (λ c. Gives result (page_of tables.now.world ask.now c query.now)) }
    ensures steps { steps.old ≤ steps.new }
{
    match collection_named(tables.collections(), collection) {
        Some(collection) => list_of(alloc, tables, rules, ask, collection, query, steps),
        None => unreachable!(),
    }
}
