use crate::call::Call;
use pocket_types::{Method, Moment, Pair, Seq, Text};

/// What a request is given from outside: the moment at which it is judged, and two random words.
#[derive(Clone, Copy)]
pub struct Draw {
    pub moment: Moment,
    pub words: [u64; 2],
}

/// A request as the machine takes it.
#[derive(Drop)]
pub struct Work {
    /// The token of the `Authorization` header, without a leading `Bearer `.
    pub token: Option<Text>,
    pub method: Method,
    /// Names in lower case, with `-` as `_`.
    pub headers: Seq<Pair>,
    pub query: Seq<Pair>,
    pub draw: Draw,
    pub call: Call,
    /// The number of bytes of the request's head and body.
    pub cost: u64,
}
