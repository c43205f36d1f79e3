use crate::names::Name;
use crate::text::Text;
use std::alloc::{AllocError, AllocFailed};
use std::error::Error;
use std::fmt;

/// Why a text isn't a filter. A place is a byte of the text, counted from 0.
#[derive(Clone, Copy, PartialEq, Eq)]
pub enum FilterFault {
    BadByte(u32),
    OpenString(u32),
    Unexpected(u32),
    TooLong,
    TooDeep,
    TooMany,
    NumberRange(u32),
    Memory,
}

/// Why a filter's names lead nowhere. The place is the number of the operand, counted from 0 from the left.
#[derive(Drop)]
pub enum ResolveFault {
    NoCollection(Text),
    NoField(Text),
    NotRelation(Text),
    BadModifier(u32),
    TooManySteps,
    TooManyPrefixes,
    SuperuserOnly(u32),
    HiddenField(Text),
    Memory,
}

/// Why the text of a rule is no filter of its collection. Neither fault is want of memory.
#[derive(Drop)]
pub enum RuleFault {
    Parse(FilterFault),
    Resolve(ResolveFault),
}

/// What is wrong with a field of a record.
#[derive(Clone, Copy)]
pub enum Code {
    /// The JSON isn't of the field's type.
    Kind,
    /// A number is over 2^53 - 1 in size.
    Range,
    /// The field is required and has its type's zero value.
    Required,
    /// Below the least that the field allows.
    Min,
    /// Above the most that the field allows.
    Max,
    /// A select's item isn't one of the field's values.
    Value,
    /// A relation's record isn't there.
    Missing,
    /// The field is unique and another record has the value.
    Taken,
}

/// A field of a record, with what is wrong with it.
#[derive(Drop)]
pub struct FieldFault {
    pub field: Name,
    pub code: Code,
}

/// A limit that a change would pass.
#[derive(Clone, Copy)]
pub enum Limit {
    /// Collections in all.
    Collections,
    /// Fields of one collection.
    Fields,
    /// Records in all.
    Records,
    /// Bytes of one record's row.
    Record,
    /// Bytes of all records' rows.
    Store,
    /// Tokens that last.
    Tokens,
    /// Items of a batch.
    Requests,
}

impl FilterFault {
    /// What is wrong, behind the place where there is one.
    fn reason(self) -> &'static str {
        match self {
            FilterFault::BadByte(_) => {
                "stands a byte that no name, text, number or operator begins with, or a `.` or `:` without a name after it"
            }
            FilterFault::OpenString(_) => "begins a text that has no closing quote",
            FilterFault::Unexpected(_) => "a filter can't go on like this",
            FilterFault::TooLong => "a filter has at most 3500 bytes",
            FilterFault::TooDeep => "a filter has at most 16 open parentheses",
            FilterFault::TooMany => "a filter has at most 100 comparisons",
            FilterFault::NumberRange(_) => "stands a number over 9007199254740991 in size",
            FilterFault::Memory => "out of memory",
        }
    }
}

impl fmt::Display for FilterFault {
    fn fmt<W: fmt::Write>(&self, f: &mut fmt::Formatter<W>) -> fmt::Result {
        match self {
            FilterFault::BadByte(at)
            | FilterFault::OpenString(at)
            | FilterFault::Unexpected(at)
            | FilterFault::NumberRange(at) => write!(f, "at {at} {}", self.reason()),
            _ => f.write_str(self.reason()),
        }
    }
}

impl fmt::Debug for FilterFault {
    fn fmt<W: fmt::Write>(&self, f: &mut fmt::Formatter<W>) -> fmt::Result {
        fmt::Display::fmt(self, f)
    }
}

impl Error for FilterFault {}

impl ResolveFault {
    /// What is wrong, behind the name or the operand where there is one.
    fn reason(&self) -> &'static str {
        match self {
            ResolveFault::NoCollection(_) => "there is no such collection",
            ResolveFault::NoField(_) => "there is no such field here",
            ResolveFault::NotRelation(_) => "this field is no relation that leads on from here",
            ResolveFault::BadModifier(_) => "has a modifier that doesn't stand there",
            ResolveFault::TooManySteps => "a path has at most 6 steps over relations",
            ResolveFault::TooManyPrefixes => {
                "a filter has at most 12 different paths to related records"
            }
            ResolveFault::SuperuserOnly(_) => {
                "may only stand in a rule, or in a filter of the administrator"
            }
            ResolveFault::HiddenField(_) => "this field is hidden",
            ResolveFault::Memory => "out of memory",
        }
    }
}

impl fmt::Display for ResolveFault {
    fn fmt<W: fmt::Write>(&self, f: &mut fmt::Formatter<W>) -> fmt::Result {
        match self {
            ResolveFault::NoCollection(name)
            | ResolveFault::NoField(name)
            | ResolveFault::NotRelation(name)
            | ResolveFault::HiddenField(name) => write!(f, "{name}: {}", self.reason()),
            ResolveFault::BadModifier(operand) | ResolveFault::SuperuserOnly(operand) => {
                write!(f, "operand {operand} {}", self.reason())
            }
            _ => f.write_str(self.reason()),
        }
    }
}

impl fmt::Debug for ResolveFault {
    fn fmt<W: fmt::Write>(&self, f: &mut fmt::Formatter<W>) -> fmt::Result {
        fmt::Display::fmt(self, f)
    }
}

impl Error for ResolveFault {}

impl From<AllocError> for FilterFault {
    ghost use Rattle.std.specs.Prelude.{◌≡◌};
    ghost use Rattle.pocket_types.specs.declared.faults.FilterFault.TheVariants.{Memory};

    ghost from_gives = { λ _ fault. fault ≡ Memory };

    fn from(_refused: AllocError) -> FilterFault {
        FilterFault::Memory
    }
}

impl<T: Drop> From<AllocFailed<T>> for FilterFault {
    ghost use Rattle.std.specs.Prelude.{◌≡◌};
    ghost use Rattle.pocket_types.specs.declared.faults.FilterFault.TheVariants.{Memory};

    ghost from_gives = { λ _ fault. fault ≡ Memory };

    fn from(_refused: AllocFailed<T>) -> FilterFault {
        FilterFault::Memory
    }
}

impl From<AllocError> for ResolveFault {
    ghost use Rattle.std.specs.Prelude.{◌≡◌};
    ghost use Rattle.pocket_types.specs.declared.faults.ResolveFault.TheVariants.{Memory};

    ghost from_gives = { λ _ fault. fault ≡ Memory };

    fn from(_refused: AllocError) -> ResolveFault {
        ResolveFault::Memory
    }
}

impl<T: Drop> From<AllocFailed<T>> for ResolveFault {
    ghost use Rattle.std.specs.Prelude.{◌≡◌};
    ghost use Rattle.pocket_types.specs.declared.faults.ResolveFault.TheVariants.{Memory};

    ghost from_gives = { λ _ fault. fault ≡ Memory };

    fn from(_refused: AllocFailed<T>) -> ResolveFault {
        ResolveFault::Memory
    }
}
