use crate::plan::Plan;
use pocket_types::{Name, Seq};

/// Which records of a collection a view admits.
#[derive(Drop)]
pub enum ViewTest {
    All,
    Nobody,
    /// Those of which the plan's filter holds in the whole world.
    ByPlan(Plan),
}

/// What a guard shows of one collection. Of two views of one collection the first counts.
#[derive(Drop)]
pub struct View {
    pub collection: Name,
    pub test: ViewTest,
}

/// What filters may see: of each collection the records that its view admits, of a collection without a view none, and never a
/// hidden field.
#[derive(Drop)]
pub struct Guard {
    pub views: Seq<View>,
}
