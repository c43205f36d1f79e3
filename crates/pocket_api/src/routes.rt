// Which resource a path names, and which of its segments are names.
ghost use Rattle.std.specs.Prelude.{◌≡◌, ◌<◌, ◌∷◌, [], IfSome, MatchOption, length};
ghost use Rattle.std.specs.List.{after_first};
ghost use Rattle.pocket_api.specs.Routes.{fits, fits_segment, is_question_mark, path_of, resource_of, segment_at, segments};

/// What a path names.
#[derive(Clone, Copy)]
pub(crate) enum Resource {
    /// All collections.
    Collections,
    /// One collection.
    Collection,
    /// The records of a collection.
    Records,
    /// One record.
    Record,
    /// The tokens of one record.
    Impersonation,
    /// Several changes of records at once.
    Batch,
    /// All clients of messages.
    Realtime,
    /// One client.
    Client,
}

/// The path of a target, and the query behind its first `?`.
pub(crate) fn path_and_query(target: &str) -> (&str, &str)
    ensures path { result.0.now ≡ path_of target.now }
    ensures query { result.1.now ≡ after_first is_question_mark target.now }
{
    match target.split_once('?') {
        Some(parts) => parts,
        None => (target, ""),
    }
}

/// The first segment of a path, and what stands behind its slash, where there is one.
fn first_segment(path: &str) -> (&str, Option<&str>)
    ensures first { MatchOption result.1 (segments path.now ≡ result.0.now ∷ [])
        (λ rest. segments path.now ≡ result.0.now ∷ segments rest.now) }
    ensures shorter { IfSome result.1 (λ rest. length rest.now < length path.now) }
{
    match path.split_once('/') {
        Some((segment, rest)) => (segment, Some(rest)),
        None => (path, None),
    }
}

fn fits_segment(word: &str, segment: &str) -> bool
    ensures { result ≡ fits_segment word.now segment.now }
{
    if word.starts_with("{") {
        !segment.is_empty()
    } else {
        segment == word
    }
}

/// Whether a route fits a path.
fn fits(route: &str, path: &str) -> bool
    ensures { result ≡ fits route.now path.now }
{
    let (word, words) = first_segment(route);
    let (segment, rest) = first_segment(path);
    let first = fits_segment(word, segment);
    match (words, rest) {
        (None, None) => first,
        (Some(words), Some(rest)) => first && fits(words, rest),
        _ => false,
    }
}

/// The resource that a path names.
pub(crate) fn resource_of(path: &str) -> Option<Resource>
    ensures { result ≡ resource_of path.now }
{
    if fits("/api/collections", path) {
        Some(Resource::Collections)
    } else if fits("/api/collections/{c}", path) {
        Some(Resource::Collection)
    } else if fits("/api/collections/{c}/records", path) {
        Some(Resource::Records)
    } else if fits("/api/collections/{c}/records/{id}", path) {
        Some(Resource::Record)
    } else if fits("/api/collections/{c}/impersonate/{id}", path) {
        Some(Resource::Impersonation)
    } else if fits("/api/batch", path) {
        Some(Resource::Batch)
    } else if fits("/api/realtime", path) {
        Some(Resource::Realtime)
    } else if fits("/api/realtime/{id}", path) {
        Some(Resource::Client)
    } else {
        None
    }
}

/// The segment of a path at a place, counted from 0; empty where there is none.
pub(crate) fn segment_at(path: &str, at: usize) -> &str
    ensures { result.now ≡ segment_at at path.now }
{
    let (segment, rest) = first_segment(path);
    if at == 0 {
        return segment;
    }
    match rest {
        Some(rest) => segment_at(rest, at - 1),
        None => "",
    }
}
