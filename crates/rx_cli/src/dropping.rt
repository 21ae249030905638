//! Letting go of a value before an answer.
ghost use Rattle.std.specs.Prelude.{◌≡◌};

/// The answer, once the value is let go of.
pub(crate) fn dropped<T: Drop, A>(value: T, answer: A) -> A
    ensures { result ≡ answer }
{
    drop(value);
    answer
}
