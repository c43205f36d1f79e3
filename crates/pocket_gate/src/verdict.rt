use pocket_types::{Action, Name};

/// What a rule says of a record. The collection and the action are those of the rule that keeps the caller out.
#[derive(Drop)]
pub enum Verdict {
    Allowed,
    /// Nobody but the administrator may do it.
    Locked(Name, Action),
    /// It may be done, but not by this caller with this record.
    RuleFalse(Name, Action),
}
