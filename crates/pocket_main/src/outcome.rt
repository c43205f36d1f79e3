// What the program came to, and what it says of it.
ghost use Rattle.std.specs.Prelude.{◌≡◌, ◌⊎◌};
ghost use Rattle.pocket.specs.Exits.{exit_status, serve_exit};

use pocket::{RunEnd, ServeStatus};
use pocket_wire::Ended;

const USAGE: &str = "usage: pocket pipe|serve|load|check";

/// What the program came to.
#[derive(Drop)]
pub enum Outcome {
    Ended(RunEnd),
    /// A server, and how many commands it accepted.
    Served(ServeStatus, usize),
}

/// Says on standard error how a run ended that didn't end well, and gives its exit status.
fn report_end(rt: &impl Eprint, ended: &RunEnd) -> u8
    ensures { result ≡ exit_status ended.now }
{
    let code = ended.code();
    let _ = match ended {
        RunEnd::Words => eprintln!(rt; "{USAGE}"),
        _ if code == 0 => Ok(()),
        _ => eprintln!(rt; "pocket: {ended}"),
    };
    code
}

/// Says how a server ended, on standard output how many commands it accepted and on standard error what didn't go well,
/// and gives its exit status.
fn report_served(rt: &(impl Print + Eprint), status: &ServeStatus, accepted: usize) -> u8
    ensures { (result ≡ serve_exit status.now.started status.now.workers)
        ⊎ ((status.now.started ≡ RunEnd.Session Ended.Done) × (result ≡ exit_status RunEnd.SinkFault)) }
{
    let RunEnd::Session(Ended::Done) = status.started else {
        return report_end(rt, &status.started);
    };
    if println!(rt; "history {accepted}").is_err() {
        return report_end(rt, &RunEnd::SinkFault);
    }
    let code = status.code();
    if code != 0 {
        let _ = eprintln!(rt; "pocket: a worker ended since it couldn't accept a connection");
    }
    code
}

impl Outcome {
    ghost use Rattle.pocket_main.specs.Outcomes.{IsExitOf};

    /// Says what there is to say of it, and gives the exit status.
    pub fn report(&self, rt: &(impl Print + Eprint)) -> u8
        ensures { IsExitOf self.now result }
    {
        match self {
            Outcome::Ended(ended) => report_end(rt, ended),
            Outcome::Served(status, accepted) => report_served(rt, status, *accepted),
        }
    }
}
