ghost use Rattle.std.specs.Prelude.{◌≢◌, ℕ, IfErr, IfOk, List, map};
ghost use Rattle.std.specs.String.{string_bytes};
ghost use Rattle.pocket.specs.Words.{IsPipe, IsServe};

use pocket_types::Text;
use pocket_words::{Command, WordFault, read_words};
use std::alloc::Global;

/// The administrator's token in the words of `pipe`. The words are bad exactly where they aren't these.
pub(crate) fn pipe_token(alloc: Global, words: &[String]) -> Result<Text, WordFault>
    ensures good { IfOk result (λ token. IsPipe (map string_bytes words.now) token) }
    ensures bad { IfErr result (λ fault. fault ≢ WordFault.Memory → (token : List ℕ) → ¬ IsPipe (map string_bytes words.now) token) }
{
    match read_words(alloc, words)? {
        Command::Pipe {
            admin,
            store: _,
            sample: _,
        } => Ok(admin),
        _ => Err(WordFault::BadWords),
    }
}

/// The administrator's token in the words of `serve`. The words are bad exactly where they aren't these.
pub(crate) fn serve_token(alloc: Global, words: &[String]) -> Result<Text, WordFault>
    ensures good { IfOk result (λ token. IsServe (map string_bytes words.now) token) }
    ensures bad { IfErr result (λ fault. fault ≢ WordFault.Memory → (token : List ℕ) → ¬ IsServe (map string_bytes words.now) token) }
{
    match read_words(alloc, words)? {
        Command::Serve {
            admin,
            port: _,
            workers: _,
            connections: _,
            store: _,
        } => Ok(admin),
        _ => Err(WordFault::BadWords),
    }
}
