ghost use Rattle.std.specs.Prelude.{◌≡◌};
ghost use Rattle.pocket_types.specs.Callers.{is_admin};

use crate::ids::Id;
use crate::moments::Moment;
use crate::names::Name;
use crate::records::Cell;
use crate::seq::Seq;
use crate::text::Text;

/// Who sent a request.
#[derive(Drop)]
pub enum Caller {
    /// Nobody that is known: no token, or none that is valid.
    Guest,
    /// A record of an auth collection, by its collection's name and its id.
    Member(Name, Id),
    /// The administrator, to whom rules aren't applied.
    Admin,
}

impl Caller {
    /// Whether it is the administrator, to whom rules aren't applied.
    pub fn is_admin(&self) -> bool
        ensures { result ≡ is_admin self.now }
    {
        matches!(self, Caller::Admin)
    }
}

/// The methods that requests may have.
#[derive(Clone, Copy, Debug)]
pub enum Method {
    Get,
    Post,
    Patch,
    Put,
    Delete,
}

/// Whether a rule is judged for a reply or for a message to a subscriber.
#[derive(Clone, Copy)]
pub enum Context {
    Default,
    Realtime,
}

/// A name with its value: a header, or a part of a query.
#[derive(Drop)]
pub struct Pair {
    pub name: Text,
    pub value: Text,
}

/// A field that was sent, with the cell that it will have.
#[derive(Drop)]
pub struct Sent {
    pub field: Name,
    pub cell: Cell,
}

/// What a rule sees of a request. Each field is sent at most once.
#[derive(Drop)]
pub struct Ask {
    pub caller: Caller,
    pub method: Method,
    pub context: Context,
    pub headers: Seq<Pair>,
    pub query: Seq<Pair>,
    pub body: Seq<Sent>,
    pub moment: Moment,
}

/// What is done with records, each under a rule of its own.
#[derive(Clone, Copy)]
pub enum Action {
    List,
    View,
    Create,
    Update,
    Delete,
}
