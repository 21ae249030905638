//! Laws of what the front end says.
ghost use Rattle.std.specs.Prelude.{◌≡◌, ◌↔◌, ℕ, List, Option};
ghost use Rattle.c_ast.specs.declared.integers.Integers.{Integers};
ghost use Rattle.c_front.specs.Conditions.{whole_front};
ghost use Rattle.c_front.specs.Front.{front};
ghost use Rattle.c_front.specs.FrontEnd.{IsReading};
ghost use Rattle.c_front.specs.declared.pairs.Compared.{Compared};
ghost use Rattle.c_front.specs.declared.pairs.TwoFunctions.{TwoFunctions};
ghost use Rattle.c_front.specs.declared.refusals.Refusal.{Refusal};
ghost use Rattle.c_front.specs.declared.stages.Next.{Next};

/// A text, two names and a precondition have at most one answer of the front end (`one`). Each
/// answer on the names comes exactly where its cause holds, as a fact of the text (`causes`). A
/// law; it does nothing.
pub fn a_text_has_one_answer()
    ensures one { (integers : Integers) (source first second : List ℕ) (pre : Option (List ℕ))
        (x y : Next Refusal Compared) → whole_front integers source first second pre x →
        whole_front integers source first second pre y → x ≡ y }
    ensures causes { (integers : Integers) (source first second : List ℕ)
        (x : Next Refusal TwoFunctions) →
        front integers source first second x ↔ IsReading integers source first second x }
{}
