use pocket_types::{Id, Moment, Name, Text};

/// A token of an auth collection's record: who has its text is that record, until the moment.
#[derive(Drop)]
pub struct Token {
    pub text: Text,
    pub collection: Name,
    pub id: Id,
    pub until: Moment,
}
