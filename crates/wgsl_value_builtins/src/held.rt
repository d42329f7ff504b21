//! Values that are held while others are made.

ghost use Rattle.std.specs.Prelude.{◌≡◌, Err, MatchResult, Ok};

/// What was made beside what is held; an error lets both go.
pub(crate) fn beside<T: Drop, U: Drop, E: Drop>(made: Result<T, E>, held: U) -> Result<(T, U), E>
    ensures { MatchResult made (λ t. result ≡ Ok (t, held)) (λ e. result ≡ Err e) }
{
    Ok((made?, held))
}
