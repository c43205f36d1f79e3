use std::error::Error;
use std::fmt;

/// A call on something outside failed: a read, a write, a commit or an accept. What failed counts its faults.
#[derive(Clone, Copy, Debug)]
pub struct Failed;

impl fmt::Display for Failed {
    fn fmt<W: fmt::Write>(&self, f: &mut fmt::Formatter<W>) -> fmt::Result {
        f.write_str("the system refused the call")
    }
}

impl Error for Failed {}
