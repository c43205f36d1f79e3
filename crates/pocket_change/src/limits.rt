// The limits that a record which is put may pass.
ghost use Rattle.std.specs.Prelude.{◌≡◌};
ghost use Rattle.pocket_ops.specs.Lengths.{HasOwnNames};
ghost use Rattle.pocket_change.specs.Limits.{passed_limit};

use pocket_ops::row_len;
use pocket_tables::Tables;
use pocket_types::{Collection, Limit, Rec};

/// So many records may stand in all.
const MOST_RECORDS: u64 = 200_000;

/// So many bytes a record's row may have.
const MOST_ROW_BYTES: u64 = 65_536;

/// So many bytes all rows may have.
const MOST_BYTES: u64 = 268_435_456;

/// The first limit that is passed in the tables, where this record was put last.
#[tactic(auto, using(crate::proofs::LimitLemmas::many_records, crate::proofs::LimitLemmas::long_record, crate::proofs::LimitLemmas::full_store, crate::proofs::LimitLemmas::no_limit_passed))]
pub(crate) fn limit_passed(tables: &Tables, collection: &Collection, rec: &Rec) -> Option<Limit>
    requires { HasOwnNames collection.now }
    ensures { result ≡ passed_limit tables.now.world collection.now rec.now }
{
    let totals = tables.totals();
    if totals.records > MOST_RECORDS {
        return Some(Limit::Records);
    }
    if row_len(collection, rec) > MOST_ROW_BYTES {
        return Some(Limit::Record);
    }
    if totals.bytes > MOST_BYTES {
        return Some(Limit::Store);
    }
    None
}
