ghost use Rattle.std.specs.Prelude.{◌≡◌, ◌≤◌, ◌-◌, ◌*◌, IfOk, drop, length, map, take};
ghost use Rattle.std.specs.Option.{option_copied};
ghost use Rattle.pocket_read.specs.Pages.{cut, page_in, page_number, page_size};
ghost use Rattle.pocket_read.specs.Pages as pages;

use crate::keys::SortKey;
use pocket_api::ListQuery;
use pocket_types::{Id, Rec, Seq};
use std::alloc::{AllocError, Global};

/// A page of a list.
#[derive(Drop)]
pub struct Page {
    /// The ids of its records, in order.
    pub ids: Seq<Id>,
    /// The number of the page, counted from 1.
    pub page: u32,
    /// How many records a page has, the last one apart: 1 to 500.
    pub per_page: u32,
    /// How many records the list has. None where the query leaves the total out.
    pub total: Option<u64>,
}

const FEW: u32 = 30;

const MOST: u32 = 500;

fn number_of(asked: u32) -> u32
    ensures { result ≡ page_number asked }
{
    asked.max(1)
}

fn size_of(asked: u32) -> u32
    ensures size { result ≡ page_size asked }
    ensures most { result ≤ 500 }
{
    if asked == 0 { FEW } else { asked.min(MOST) }
}

/// The part of a list that is on the page.
fn part_on<'a, T>(items: &'a [T], query: &ListQuery) -> &'a [T]
    ensures { result.now ≡ cut query.now items.now }
{
    let size = size_of(query.per_page) as usize;
    let before = (number_of(query.page) - 1) as usize * size;
    let rest = items.split_at(before.min(items.len())).1;
    rest.split_at(size.min(rest.len())).0
}

fn ids_of_recs(alloc: Global, recs: &[&Rec]) -> Result<Vec<Id>, AllocError>
    ensures { IfOk result (λ ids. ids.items ≡ map (λ r. r.now.id) recs.now) }
{
    let mut ids = Vec::new(alloc);
    for rec in recs {
        ids.push(rec.id)?;
    }
    Ok(ids)
}

fn ids_of_keys(alloc: Global, keys: &[SortKey]) -> Result<Vec<Id>, AllocError>
    ensures { IfOk result (λ ids. ids.items ≡ map (λ k. k.id) keys.now) }
{
    let mut ids = Vec::new(alloc);
    for key in keys {
        ids.push(key.id)?;
    }
    Ok(ids)
}

fn page_with(ids: Vec<Id>, count: usize, query: &ListQuery) -> Page
    ensures { result ≡ pages.page_with ids.items count query.now }
{
    Page {
        ids: Seq::from_vec(ids),
        page: number_of(query.page),
        per_page: size_of(query.per_page),
        total: if query.skip_total {
            None
        } else {
            Some(count as u64)
        },
    }
}

/// The page of records in order.
pub fn page_of_recs(alloc: Global, recs: &[&Rec], query: &ListQuery) -> Result<Page, AllocError>
    ensures { IfOk result (λ page. page ≡ page_in (map (λ r. r.now.id) recs.now) query.now) }
{
    let ids = ids_of_recs(alloc, part_on(recs, query))?;
    Ok(page_with(ids, recs.len(), query))
}

/// The page of keys in order.
pub fn page_of_keys(alloc: Global, keys: &[SortKey], query: &ListQuery) -> Result<Page, AllocError>
    ensures { IfOk result (λ page. page ≡ page_in (map (λ k. k.id) keys.now) query.now) }
{
    let ids = ids_of_keys(alloc, part_on(keys, query))?;
    Ok(page_with(ids, keys.len(), query))
}
