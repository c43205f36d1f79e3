use pocket_types::Name;

/// What a filter is resolved for.
#[derive(Drop)]
pub enum Purpose {
    /// A rule of a collection.
    RuleOf(Name),
    /// A filter that a client sent for the records of a collection.
    ClientOf { home: Name, admin: bool },
}
