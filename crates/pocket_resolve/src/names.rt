// Names with a meaning of their own.
ghost use Rattle.std.specs.Prelude.{◌≡◌, option_map};
ghost use Rattle.pocket_resolve.specs.Names as names;

use pocket_types::Macro;

/// Whether every record has a name, beside the fields of its collection.
pub fn is_built_in(name: &str) -> bool
    ensures { result ≡ names.is_built_in name.now }
{
    name == "id" || name == "created" || name == "updated" || name == "collectionName"
}

/// A name `X_via_F` as X and F, cut at its first `_via_`.
pub fn cut_at_via(name: &str) -> Option<(&str, &str)>
    ensures { option_map (λ parts. (parts.0.now, parts.1.now)) result ≡ names.cut_at_via name.now }
{
    name.split_once("_via_")
}

/// What stands behind `@request.`.
#[derive(Clone, Copy)]
pub enum Requested {
    Context,
    Method,
    Headers,
    Query,
    Body,
    Auth,
}

/// The part of a request of a name.
#[tactic(auto, unfolding(crate::specs::Names::requested_part))]
pub fn requested_part(name: &str) -> Option<Requested>
    ensures { result ≡ names.requested_part name.now }
{
    match name {
        "context" => Some(Requested::Context),
        "method" => Some(Requested::Method),
        "headers" => Some(Requested::Headers),
        "query" => Some(Requested::Query),
        "body" => Some(Requested::Body),
        "auth" => Some(Requested::Auth),
        _ => None,
    }
}

/// The macro of a name.
#[tactic(auto, unfolding(crate::specs::Names::macro_named))]
pub fn macro_named(name: &str) -> Option<Macro>
    ensures { result ≡ names.macro_named name.now }
{
    match name {
        "now" => Some(Macro::Now),
        "second" => Some(Macro::Second),
        "minute" => Some(Macro::Minute),
        "hour" => Some(Macro::Hour),
        "day" => Some(Macro::Day),
        "month" => Some(Macro::Month),
        "year" => Some(Macro::Year),
        "weekday" => Some(Macro::Weekday),
        "yesterday" => Some(Macro::Yesterday),
        "tomorrow" => Some(Macro::Tomorrow),
        "todayStart" => Some(Macro::TodayStart),
        "todayEnd" => Some(Macro::TodayEnd),
        "monthStart" => Some(Macro::MonthStart),
        "monthEnd" => Some(Macro::MonthEnd),
        "yearStart" => Some(Macro::YearStart),
        "yearEnd" => Some(Macro::YearEnd),
        _ => None,
    }
}
