use pocket_types::{Name, Rec};

/// The records of a name, rising by id. The drawer of a collection that goes stays, and keeps its room.
#[derive(Drop)]
pub(crate) struct Drawer {
    pub(crate) name: Name,
    pub(crate) recs: Vec<Rec>,
}
