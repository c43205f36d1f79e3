/// What a key of a body makes of a field's cell.
#[derive(Clone, Copy)]
pub enum Change {
    /// It becomes the value given.
    Becomes,
    /// The items given stand before those there.
    Before,
    /// The items given stand behind those there, or the number given is added.
    Behind,
    /// The items given are taken out of those there, or the number given is subtracted.
    Without,
}
