//! What is ready, beside what may have failed.
ghost use Rattle.std.specs.Prelude.{◌≡◌, Ok, Err, IfOk, IfErr};

/// Both parts, where there is the second, and else why there isn't. It knows nothing of what they
/// are: where the second failed, a caller lets go of the first here, as one value.
pub fn both<A: Drop, B, E>(first: A, second: Result<B, E>) -> Result<(A, B), E>
    ensures first { IfOk result (λ parts. parts.0 ≡ first) }
    ensures second { IfOk result (λ parts. second ≡ Ok parts.1) }
    ensures fault { IfErr result (λ fault. second ≡ Err fault) }
{
    match second {
        Ok(second) => Ok((first, second)),
        Err(fault) => Err(fault),
    }
}
