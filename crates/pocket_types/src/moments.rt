ghost use Rattle.std.specs.Prelude.{◌≡◌, MatchOption};

use crate::exact::{Exact, Faithful};
use std::marker::Model;

/// The first moment, 0001-01-01 00:00:00.000Z, in milliseconds since 1970-01-01.
pub const FIRST_MILLIS: i64 = -62_135_596_800_000;

/// The last moment, 9999-12-31 23:59:59.999Z, in milliseconds since 1970-01-01.
pub const LAST_MILLIS: i64 = 253_402_300_799_999;

/// A moment in UTC: milliseconds since 1970-01-01, in the years 1 to 9999.
#[derive(Clone, Copy, Debug, PartialEq, Eq, PartialOrd, Ord)]
pub struct Moment {
    millis: i64,
}

impl Model for Moment {
    ghost use Rattle.std.specs.Prelude.{ℤ};
    ghost use Rattle.pocket_types.specs.Names.{IsMoment};

    ghost Value = { ℤ };

    ghost view = { λ m. m.millis };

    ghost invariant = { λ m. IsMoment m.millis };

    ghost inverse = { λ d. record { millis = d } };
}

impl Moment {
    ghost use Rattle.pocket_types.specs.Names.{IsMoment};

    /// The moment of a number of milliseconds. None exactly where it isn't in the years 1 to 9999.
    pub fn of_millis(millis: i64) -> Option<Moment>
        ensures { MatchOption result (¬ IsMoment millis) (λ m. (m ≡ millis) × IsMoment millis) }
    {
        if (FIRST_MILLIS..=LAST_MILLIS).contains(&millis) {
            Some(Moment { millis })
        } else {
            None
        }
    }

    /// Milliseconds since 1970-01-01 UTC.
    pub fn millis(&self) -> i64
        ensures value { result ≡ self.now }
        ensures range { IsMoment self.now }
    {
        self.millis
    }
}

impl Exact for Moment {
    ghost use Rattle.std.proofs.Common.{rules};

    ghost eq_is_same = { Prim.search rules };
}

impl Faithful for Moment {
    ghost use Rattle.std.proofs.Common.{rules};

    ghost clone_is_same = { Prim.search rules };
}
