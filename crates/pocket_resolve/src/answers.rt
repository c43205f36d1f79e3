// Several answers together.
ghost use Rattle.std.specs.Prelude.{◌≡◌, Ok, Err, MatchResult};

/// A value with another one, where that is there. Here what to drop of the first is written once, for values of all types.
pub fn with<A: Drop, B, E>(a: A, b: Result<B, E>) -> Result<(A, B), E>
    ensures { MatchResult b (λ y. result ≡ Ok (a, y)) (λ e. result ≡ Err e) }
{
    match b {
        Ok(b) => Ok((a, b)),
        Err(fault) => Err(fault),
    }
}
