/// The number of all records, and the bytes of their row texts together, each held at 2^64 - 1.
#[derive(Clone, Copy, Debug, PartialEq, Eq)]
pub struct Totals {
    pub records: u64,
    pub bytes: u64,
}
