use crate::body::Body;
use pocket_types::Text;

/// The collection and the id that a path names, as written there. They needn't be of a name's and an id's form.
#[derive(Drop)]
pub struct Target {
    pub collection: Text,
    pub id: Text,
}

/// Which related records and which fields the answer is to show.
#[derive(Drop)]
pub struct Shown {
    pub expand: Option<Text>,
    pub fields: Option<Text>,
}

/// The query of a list. A number that is absent is 0, a text that is absent or empty is none.
#[derive(Drop)]
pub struct ListQuery {
    /// The number of the page, counted from 1.
    pub page: u32,
    pub per_page: u32,
    pub sort: Option<Text>,
    pub filter: Option<Text>,
    pub expand: Option<Text>,
    pub fields: Option<Text>,
    /// Whether the totals are left out.
    pub skip_total: bool,
}

/// What a request calls for. A body is none where its bytes aren't JSON.
#[derive(Drop)]
pub enum Call {
    /// No path or method that is known.
    NoRoute,
    /// All collections.
    Collections,
    CollectionNew {
        body: Option<Body>,
    },
    CollectionGet {
        place: Text,
    },
    CollectionSet {
        place: Text,
        body: Option<Body>,
    },
    CollectionDrop {
        place: Text,
    },
    /// Records of one collection, a page of them.
    List {
        collection: Text,
        query: ListQuery,
    },
    /// One record.
    View {
        target: Target,
        shown: Shown,
    },
    Create {
        collection: Text,
        body: Option<Body>,
        shown: Shown,
    },
    Update {
        target: Target,
        body: Option<Body>,
        shown: Shown,
    },
    Remove {
        target: Target,
    },
    /// A token for a record of an auth collection.
    Impersonate {
        target: Target,
        body: Option<Body>,
    },
    /// Several changes of records, of which all are made or none.
    Batch {
        body: Option<Body>,
    },
    /// A new client for messages.
    LiveOpen,
    /// The topics of a client.
    LiveSet {
        body: Option<Body>,
    },
    /// The messages of a client whose number is above `after`.
    LivePoll {
        client: Text,
        after: u64,
    },
    LiveClose {
        client: Text,
    },
}
