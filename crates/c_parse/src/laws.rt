//! What the places determine. The function does nothing; its contract is the law.
ghost use Rattle.std.specs.Prelude.{◌≡◌, ℕ, List, Option};
ghost use Rattle.c_lex.specs.declared.token.Token.{Token};
ghost use Rattle.c_parse.specs.Places.{IsExpression, IsPlace, IsProgram};

/// A list of tokens is lost at one place at most, and at none where it is spelled: the tokens
/// determine what `program_fault` and `expression_fault` answer, except when out of memory.
pub fn tokens_have_one_place()
    ensures programs { (ts : List Token) (o r : Option ℕ) →
        IsPlace IsProgram ts o → IsPlace IsProgram ts r → o ≡ r }
    ensures expressions { (ts : List Token) (o r : Option ℕ) →
        IsPlace IsExpression ts o → IsPlace IsExpression ts r → o ≡ r }
{}
