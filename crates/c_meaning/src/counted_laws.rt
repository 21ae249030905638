//! What the counted run says of the meaning by the mathematical integers, for every resolved
//! program.

ghost use Rattle.std.specs.Prelude.{◌≡◌, ◌≤◌, ℕ, List, ℤ};
ghost use Rattle.c_ast.specs.declared.expr.Expr.{Expr};
ghost use Rattle.c_ast.specs.declared.integers.Integers.TheVariants.{Unbounded};
ghost use Rattle.c_ast.specs.declared.program.Resolved.{Resolved};
ghost use Rattle.c_meaning.specs.Counted.{counted, counted_expr};
ghost use Rattle.c_meaning.specs.Runs.{Value, DivisionError};
ghost use Rattle.c_meaning.specs.Outcomes as meaning;
ghost use Rattle.c_meaning.specs.Outcomes.{State};
ghost use Rattle.c_meaning.specs.Programs.{call_outcome, expr_outcome, Returns};

/// Where a call's counted run with some number of rounds leads to an integer or to the division
/// error, the meaning with as many rounds gives the same, and so the function returns it.
pub fn counted_calls_are_meant()
    ensures value { (program : Resolved) (rounds f : ℕ) (arguments : List ℤ) (x : ℤ) (left : ℕ) →
        counted program rounds f arguments ≡ Value x left →
        call_outcome Unbounded program rounds f arguments ≡ meaning.Value x }
    ensures division { (program : Resolved) (rounds f : ℕ) (arguments : List ℤ) →
        counted program rounds f arguments ≡ DivisionError →
        call_outcome Unbounded program rounds f arguments ≡ meaning.Error meaning.Division }
    ensures returns { (program : Resolved) (rounds f : ℕ) (arguments : List ℤ) (x : ℤ) (left : ℕ) →
        counted program rounds f arguments ≡ Value x left →
        Returns Unbounded program f arguments (meaning.Value x) }
    ensures returns_error { (program : Resolved) (rounds f : ℕ) (arguments : List ℤ) →
        counted program rounds f arguments ≡ DivisionError →
        Returns Unbounded program f arguments (meaning.Error meaning.Division) }
{}

/// Where an expression's counted run leads to an integer or to the division error, the meaning with
/// as many rounds gives the same.
pub fn counted_expressions_are_meant()
    ensures value { (program : Resolved) (e : Expr) (rounds : ℕ) (s : State) (x : ℤ) (left : ℕ) →
        counted_expr program e rounds s ≡ Value x left →
        expr_outcome Unbounded program rounds e s ≡ meaning.Value x }
    ensures division { (program : Resolved) (e : Expr) (rounds : ℕ) (s : State) →
        counted_expr program e rounds s ≡ DivisionError →
        expr_outcome Unbounded program rounds e s ≡ meaning.Error meaning.Division }
{}

/// What is left after a call, or after an expression, is at most what there was.
pub fn what_is_left_was_there()
    ensures calls { (program : Resolved) (rounds f : ℕ) (arguments : List ℤ) (x : ℤ) (left : ℕ) →
        counted program rounds f arguments ≡ Value x left → left ≤ rounds }
    ensures expressions { (program : Resolved) (e : Expr) (rounds : ℕ) (s : State)
        (x : ℤ) (left : ℕ) →
        counted_expr program e rounds s ≡ Value x left → left ≤ rounds }
{}
