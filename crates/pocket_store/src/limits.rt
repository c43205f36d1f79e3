// The limits of a store.
ghost use Rattle.std.specs.Prelude.{◌≡◌, ◌⊎◌, ◌+◌, ◌<◌, ◌≤◌, [], MatchOption};
ghost use Rattle.pocket_store.specs.Limits.{AreCounts};

/// The most fields of a collection.
pub(crate) const MOST_FIELDS: usize = 64;

/// The most bytes of a record's row text.
pub(crate) const MOST_BYTES: usize = 65_536;

const MOST_COLLECTIONS: u64 = 100;

const MOST_RECORDS: u64 = 200_000;

const MOST_STORE: u64 = 268_435_456;

const MOST_TOKENS: u64 = 10_000;

/// What the rows so far take: how many rows of each sort there are, and the bytes of the records' values.
#[derive(Clone, Copy)]
pub(crate) struct Counts {
    pub collections: u64,
    pub records: u64,
    pub store: u64,
    pub tokens: u64,
}

impl Counts {
    pub(crate) fn none() -> Counts
        ensures { AreCounts [] result }
    {
        Counts {
            collections: 0,
            records: 0,
            store: 0,
            tokens: 0,
        }
    }

    /// With one collection more. None where that passes a limit.
    pub(crate) fn with_collection(self) -> Option<Counts>
        ensures { MatchOption result (100 ≤ self.collections)
            (λ new. (self.collections < 100) × (new ≡ record self { collections = self.collections + 1 })) }
    {
        if self.collections < MOST_COLLECTIONS {
            Some(Counts {
                collections: self.collections + 1,
                ..self
            })
        } else {
            None
        }
    }

    /// With one record more, of so many bytes. None where that passes a limit.
    pub(crate) fn with_rec(self, bytes: u64) -> Option<Counts>
        requires { self.store ≤ 268435456 }
        ensures { MatchOption result ((200000 ≤ self.records) ⊎ (268435456 < self.store + bytes))
            (λ new. (self.records < 200000) × (self.store + bytes ≤ 268435456) × (new ≡ record self { records = self.records + 1; store = self.store + bytes })) }
    {
        if self.records >= MOST_RECORDS {
            return None;
        }
        if bytes > MOST_STORE - self.store {
            return None;
        }
        Some(Counts {
            records: self.records + 1,
            store: self.store + bytes,
            ..self
        })
    }

    /// With one token more. None where that passes a limit.
    pub(crate) fn with_token(self) -> Option<Counts>
        ensures { MatchOption result (10000 ≤ self.tokens)
            (λ new. (self.tokens < 10000) × (new ≡ record self { tokens = self.tokens + 1 })) }
    {
        if self.tokens < MOST_TOKENS {
            Some(Counts {
                tokens: self.tokens + 1,
                ..self
            })
        } else {
            None
        }
    }
}
