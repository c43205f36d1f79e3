// What a method calls for at each resource. A body is read only where a call has one.
ghost use Rattle.std.specs.Prelude.{◌≡◌, IfOk, codes};
ghost use Rattle.pocket_api.specs.Routes.{call_at, call_on, client_in, collection_in, resource_of, target_in};
ghost use Rattle.pocket_api.specs.Queries.{list_query, query_number, shown_by};
ghost use Rattle.pocket_api.specs.Works.{body_of, tree_of};
ghost use Rattle.pocket_api.specs.declared.call.Call.TheVariants as call;
ghost use Rattle.pocket_api.specs.declared.routes.Resource.TheVariants as resource;

use crate::body::Body;
use crate::call::{Call, Target};
use crate::query::{list_query, query_number, shown_by};
use crate::routes::{Resource, resource_of, segment_at};
use pocket_json::{JsonFault, read_jv};
use pocket_types::{Method, Pair, Text};
use std::alloc::{AllocError, Global};

/// What a call is read from, beside its method.
#[derive(Clone, Copy)]
pub(crate) struct Parts<'a> {
    pub path: &'a str,
    pub query: &'a [Pair],
    pub body: &'a [u8],
}

/// The tree of bytes, where they are JSON.
fn read_body(alloc: Global, bytes: &[u8]) -> Result<Option<Body>, AllocError>
    ensures { IfOk result (λ body. body ≡ tree_of bytes.now) }
{
    match read_jv(alloc, bytes) {
        Ok(tree) => Ok(Some(Body::new(tree))),
        Err(JsonFault::BadJson) => Ok(None),
        Err(JsonFault::Memory) => Err(AllocError),
    }
}

/// The tree of a body: that of an empty one is an empty map, and there is none where the bytes aren't JSON.
fn body_of(alloc: Global, bytes: &[u8]) -> Result<Option<Body>, AllocError>
    ensures { IfOk result (λ body. body ≡ body_of bytes.now) }
{
    if bytes.is_empty() {
        Ok(Some(Body::empty(alloc)))
    } else {
        read_body(alloc, bytes)
    }
}

/// The collection that a path names.
fn collection_in(alloc: Global, path: &str) -> Result<Text, AllocError>
    ensures { IfOk result (λ text. text ≡ collection_in path.now) }
{
    Text::from_str(alloc, segment_at(path, 3))
}

/// The record that a path names.
fn target_in(alloc: Global, path: &str) -> Result<Target, AllocError>
    ensures { IfOk result (λ target. target ≡ target_in path.now) }
{
    Ok(Target {
        collection: Text::from_str(alloc, segment_at(path, 3))?,
        id: Text::from_str(alloc, segment_at(path, 5))?,
    })
}

/// The client that a path names.
fn client_in(alloc: Global, path: &str) -> Result<Text, AllocError>
    ensures { IfOk result (λ text. text ≡ client_in path.now) }
{
    Text::from_str(alloc, segment_at(path, 3))
}

// ---- calls of several parts

fn collection_set(alloc: Global, parts: &Parts<'_>) -> Result<Call, AllocError>
    ensures { IfOk result (λ c. c ≡ call.CollectionSet (collection_in parts.now.path.now) (body_of parts.now.body.now)) }
{
    Ok(Call::CollectionSet {
        place: collection_in(alloc, parts.path)?,
        body: body_of(alloc, parts.body)?,
    })
}

fn list(alloc: Global, parts: &Parts<'_>) -> Result<Call, AllocError>
    ensures { IfOk result (λ c. c ≡ call.List (collection_in parts.now.path.now) (list_query parts.now.query.now)) }
{
    Ok(Call::List {
        collection: collection_in(alloc, parts.path)?,
        query: list_query(alloc, parts.query)?,
    })
}

fn create(alloc: Global, parts: &Parts<'_>) -> Result<Call, AllocError>
    ensures { IfOk result (λ c. c ≡ call.Create (collection_in parts.now.path.now) (body_of parts.now.body.now) (shown_by parts.now.query.now)) }
{
    Ok(Call::Create {
        collection: collection_in(alloc, parts.path)?,
        body: body_of(alloc, parts.body)?,
        shown: shown_by(alloc, parts.query)?,
    })
}

fn view(alloc: Global, parts: &Parts<'_>) -> Result<Call, AllocError>
    ensures { IfOk result (λ c. c ≡ call.View (target_in parts.now.path.now) (shown_by parts.now.query.now)) }
{
    Ok(Call::View {
        target: target_in(alloc, parts.path)?,
        shown: shown_by(alloc, parts.query)?,
    })
}

fn update(alloc: Global, parts: &Parts<'_>) -> Result<Call, AllocError>
    ensures { IfOk result (λ c. c ≡ call.Update (target_in parts.now.path.now) (body_of parts.now.body.now) (shown_by parts.now.query.now)) }
{
    Ok(Call::Update {
        target: target_in(alloc, parts.path)?,
        body: body_of(alloc, parts.body)?,
        shown: shown_by(alloc, parts.query)?,
    })
}

fn impersonate(alloc: Global, parts: &Parts<'_>) -> Result<Call, AllocError>
    ensures { IfOk result (λ c. c ≡ call.Impersonate (target_in parts.now.path.now) (body_of parts.now.body.now)) }
{
    Ok(Call::Impersonate {
        target: target_in(alloc, parts.path)?,
        body: body_of(alloc, parts.body)?,
    })
}

fn poll(alloc: Global, parts: &Parts<'_>) -> Result<Call, AllocError>
    ensures { IfOk result (λ c. c ≡ call.LivePoll (client_in parts.now.path.now) (query_number 15 parts.now.query.now (codes "after"))) }
{
    Ok(Call::LivePoll {
        client: client_in(alloc, parts.path)?,
        after: query_number(parts.query, "after", 15),
    })
}

// ---- what each method calls for

fn at_collections(alloc: Global, method: Method, parts: &Parts<'_>) -> Result<Call, AllocError>
    ensures { IfOk result (λ c. c ≡ call_at resource.Collections method parts.now.path.now parts.now.query.now (body_of parts.now.body.now)) }
{
    match method {
        Method::Get => Ok(Call::Collections),
        Method::Post => Ok(Call::CollectionNew {
            body: body_of(alloc, parts.body)?,
        }),
        Method::Patch | Method::Put | Method::Delete => Ok(Call::NoRoute),
    }
}

fn at_collection(alloc: Global, method: Method, parts: &Parts<'_>) -> Result<Call, AllocError>
    ensures { IfOk result (λ c. c ≡ call_at resource.Collection method parts.now.path.now parts.now.query.now (body_of parts.now.body.now)) }
{
    match method {
        Method::Get => Ok(Call::CollectionGet {
            place: collection_in(alloc, parts.path)?,
        }),
        Method::Patch => collection_set(alloc, parts),
        Method::Delete => Ok(Call::CollectionDrop {
            place: collection_in(alloc, parts.path)?,
        }),
        Method::Post | Method::Put => Ok(Call::NoRoute),
    }
}

fn at_records(alloc: Global, method: Method, parts: &Parts<'_>) -> Result<Call, AllocError>
    ensures { IfOk result (λ c. c ≡ call_at resource.Records method parts.now.path.now parts.now.query.now (body_of parts.now.body.now)) }
{
    match method {
        Method::Get => list(alloc, parts),
        Method::Post => create(alloc, parts),
        Method::Patch | Method::Put | Method::Delete => Ok(Call::NoRoute),
    }
}

fn at_record(alloc: Global, method: Method, parts: &Parts<'_>) -> Result<Call, AllocError>
    ensures { IfOk result (λ c. c ≡ call_at resource.Record method parts.now.path.now parts.now.query.now (body_of parts.now.body.now)) }
{
    match method {
        Method::Get => view(alloc, parts),
        Method::Patch => update(alloc, parts),
        Method::Delete => Ok(Call::Remove {
            target: target_in(alloc, parts.path)?,
        }),
        Method::Post | Method::Put => Ok(Call::NoRoute),
    }
}

fn at_impersonation(alloc: Global, method: Method, parts: &Parts<'_>) -> Result<Call, AllocError>
    ensures { IfOk result (λ c. c ≡ call_at resource.Impersonation method parts.now.path.now parts.now.query.now (body_of parts.now.body.now)) }
{
    match method {
        Method::Post => impersonate(alloc, parts),
        Method::Get | Method::Patch | Method::Put | Method::Delete => Ok(Call::NoRoute),
    }
}

fn at_batch(alloc: Global, method: Method, parts: &Parts<'_>) -> Result<Call, AllocError>
    ensures { IfOk result (λ c. c ≡ call_at resource.Batch method parts.now.path.now parts.now.query.now (body_of parts.now.body.now)) }
{
    match method {
        Method::Post => Ok(Call::Batch {
            body: body_of(alloc, parts.body)?,
        }),
        Method::Get | Method::Patch | Method::Put | Method::Delete => Ok(Call::NoRoute),
    }
}

fn at_realtime(alloc: Global, method: Method, parts: &Parts<'_>) -> Result<Call, AllocError>
    ensures { IfOk result (λ c. c ≡ call_at resource.Realtime method parts.now.path.now parts.now.query.now (body_of parts.now.body.now)) }
{
    match method {
        Method::Get => Ok(Call::LiveOpen),
        Method::Post => Ok(Call::LiveSet {
            body: body_of(alloc, parts.body)?,
        }),
        Method::Patch | Method::Put | Method::Delete => Ok(Call::NoRoute),
    }
}

fn at_client(alloc: Global, method: Method, parts: &Parts<'_>) -> Result<Call, AllocError>
    ensures { IfOk result (λ c. c ≡ call_at resource.Client method parts.now.path.now parts.now.query.now (body_of parts.now.body.now)) }
{
    match method {
        Method::Get => poll(alloc, parts),
        Method::Delete => Ok(Call::LiveClose {
            client: client_in(alloc, parts.path)?,
        }),
        Method::Post | Method::Patch | Method::Put => Ok(Call::NoRoute),
    }
}

/// What a method calls for at a resource.
fn call_at(
    alloc: Global,
    resource: Resource,
    method: Method,
    parts: &Parts<'_>,
) -> Result<Call, AllocError>
    ensures { IfOk result (λ c. c ≡ call_at resource method parts.now.path.now parts.now.query.now (body_of parts.now.body.now)) }
{
    match resource {
        Resource::Collections => at_collections(alloc, method, parts),
        Resource::Collection => at_collection(alloc, method, parts),
        Resource::Records => at_records(alloc, method, parts),
        Resource::Record => at_record(alloc, method, parts),
        Resource::Impersonation => at_impersonation(alloc, method, parts),
        Resource::Batch => at_batch(alloc, method, parts),
        Resource::Realtime => at_realtime(alloc, method, parts),
        Resource::Client => at_client(alloc, method, parts),
    }
}

/// What a method calls for with these parts.
pub(crate) fn call_on(alloc: Global, method: Method, parts: &Parts<'_>) -> Result<Call, AllocError>
    ensures { IfOk result (λ c. c
        ≡ call_on (resource_of parts.now.path.now) method parts.now.path.now parts.now.query.now (body_of parts.now.body.now)) }
{
    match resource_of(parts.path) {
        Some(resource) => call_at(alloc, resource, method, parts),
        None => Ok(Call::NoRoute),
    }
}
