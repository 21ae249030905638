//! The laws of the meaning by rounds, for every resolved program.

ghost use Rattle.std.specs.Prelude.{◌≡◌, ◌≢◌, ℕ, suc, List, ℤ, pos};
ghost use Rattle.c_ast.specs.declared.expr.Expr.{Expr};
ghost use Rattle.c_ast.specs.declared.expr.Expr.TheVariants.{Binary};
ghost use Rattle.c_ast.specs.declared.expr.BinOp.TheVariants.{Div, Rem};
ghost use Rattle.c_ast.specs.declared.integers.Integers.{Integers};
ghost use Rattle.c_ast.specs.declared.integers.Integers.TheVariants.{Unbounded, Bits32};
ghost use Rattle.c_ast.specs.declared.program.Resolved.{Resolved};
ghost use Rattle.c_ast.specs.declared.stmt.Stmt.{Stmt};
ghost use Rattle.c_meaning.specs.Laws.{Stays, ReturnsExpression, HasStraightValue, Truncates};
ghost use Rattle.c_meaning.specs.Outcomes.{Outcome, Value, Error, Division, Range, State};
ghost use Rattle.c_meaning.specs.Programs.{expr_outcome, stmt_outcome, call_outcome, Returns};

/// An outcome other than `More` stays the same with more rounds: of an expression, of a statement
/// and of a call, by either kind of integers.
pub fn outcomes_stay_with_more_rounds()
    ensures expressions { (integers : Integers) (program : Resolved) (e : Expr) (s : State) →
        Stays (λ n. expr_outcome integers program n e s) }
    ensures statements { (integers : Integers) (program : Resolved) (t : Stmt) (s : State) →
        Stays (λ n. stmt_outcome integers program n t s) }
    ensures calls { (integers : Integers) (program : Resolved) (f : ℕ) (arguments : List ℤ) →
        Stays (λ n. call_outcome integers program n f arguments) }
{}

/// A function returns at most one outcome on given arguments, by either kind of integers.
pub fn a_function_returns_at_most_one_outcome()
    ensures { (integers : Integers) (program : Resolved) (f : ℕ) (arguments : List ℤ)
        (r q : Outcome ℤ) →
        Returns integers program f arguments r → Returns integers program f arguments q → r ≡ q }
{}

/// By the mathematical integers an expression with a straight value has this value as its outcome,
/// in every state and with any number of rounds. A function whose body is one `return` of it has
/// this value as the outcome of its calls, from one round on, and so returns it.
pub fn straight_bodies_return_their_value()
    ensures expression { (program : Resolved) (n : ℕ) (e : Expr) (s : State) (k : ℤ) →
        HasStraightValue s e k → expr_outcome Unbounded program n e s ≡ Value k }
    ensures call { (program : Resolved) (f : ℕ) (e : Expr) (arguments : List ℤ) (k : ℤ) →
        ReturnsExpression program f e → HasStraightValue arguments e k →
        (n : ℕ) → call_outcome Unbounded program (suc n) f arguments ≡ Value k }
    ensures returns { (program : Resolved) (f : ℕ) (e : Expr) (arguments : List ℤ) (k : ℤ) →
        ReturnsExpression program f e → HasStraightValue arguments e k →
        Returns Unbounded program f arguments (Value k) }
{}

/// By the mathematical integers `a / b` and `a % b` drop the fraction toward zero. By 0 they give
/// the division error, by either kind of integers.
pub fn division_drops_the_fraction()
    ensures truncates { (program : Resolved) (n : ℕ) (a b : Expr) (s : State) (x y : ℤ) →
        expr_outcome Unbounded program n a s ≡ Value x →
        expr_outcome Unbounded program n b s ≡ Value y →
        ¬ (y ≡ pos 0) →
        Truncates x y (expr_outcome Unbounded program n (Binary Div a b) s)
        (expr_outcome Unbounded program n (Binary Rem a b) s) }
    ensures by_zero { (integers : Integers) (program : Resolved) (n : ℕ) (a b : Expr) (s : State)
        (x : ℤ) →
        expr_outcome integers program n a s ≡ Value x →
        expr_outcome integers program n b s ≡ Value (pos 0) →
        (expr_outcome integers program n (Binary Div a b) s ≡ Error Division)
        × (expr_outcome integers program n (Binary Rem a b) s ≡ Error Division) }
{}

/// What a function returns by the integers of 32 bits, other than the range error, it returns by
/// the mathematical integers (`kept`). And by these no function returns the range error (`never`).
pub fn results_in_range_are_kept()
    ensures kept { (program : Resolved) (f : ℕ) (arguments : List ℤ) (r : Outcome ℤ) →
        Returns Bits32 program f arguments r → r ≢ Error Range →
        Returns Unbounded program f arguments r }
    ensures never { (program : Resolved) (f : ℕ) (arguments : List ℤ) →
        ¬ (Returns Unbounded program f arguments (Error Range)) }
{}
