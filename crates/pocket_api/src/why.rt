use pocket_types::{
    Action, FieldFault, FilterFault, Id, Limit, Name, ResolveFault, RuleFault, Seq, Text,
};

/// Why a reply is what it is. Places and numbers are counted from 0.
#[derive(Drop)]
pub enum Why {
    Done,
    /// No path or method that is known.
    NoRoute,
    NoCollection,
    NoRecord,
    NoClient,
    /// Only the administrator may call this.
    NotAdmin,
    /// This collection's rule for this action is locked.
    Locked(Name, Action),
    /// The client of messages was opened by another caller.
    OtherCaller,
    /// This collection's rule for this action doesn't hold of the record for this caller.
    RuleFalse(Name, Action),
    BadFilter(FilterFault),
    /// A name in the client's filter leads nowhere, or may not stand there.
    BadPath(ResolveFault),
    /// The number of the first bad term of a sort.
    BadSort(u32),
    /// The body is no JSON of the call's form.
    BadBody,
    /// The first field whose JSON isn't of its type.
    BadValue(Name),
    /// The fields that would be wrong.
    Invalid(Seq<FieldFault>),
    IdTaken,
    /// The collection, id and field of the first record that has to hold what would go.
    Required(Name, Id, Name),
    /// A limit would be passed.
    Limit(Limit),
    /// The number of a batch's first refused item.
    Item(u32),
    /// The first bad key of a collection's JSON.
    Shape(Text),
    /// Another collection has this name.
    NameTaken,
    /// The first rule that would be no filter of its collection.
    BrokenRule(Name, Action, RuleFault),
    /// The collection and field of the first relation to the collection that would go.
    Referenced(Name, Name),
    TooManyTopics,
    /// The number of the first bad topic.
    BadTopic(u32),
    /// The storage refused the change.
    KeeperFault,
    /// The history has no room for the command: the commands that it has, and the bytes with this one's.
    HistoryFull(u64, u64),
    Memory,
}
