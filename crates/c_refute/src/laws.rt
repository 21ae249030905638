//! What a difference says by the meaning, and that a comparison has one answer.

ghost use Rattle.std.specs.Prelude.{◌≡◌, ℕ, Option, List, length, ℤ};
ghost use Rattle.c_ast.specs.declared.expr.Expr.{Expr};
ghost use Rattle.c_ast.specs.declared.program.Resolved.{Resolved};
ghost use Rattle.c_meaning.specs.declared.outcomes.Outcome.{Outcome};
ghost use Rattle.c_refute.specs.Laws.{Meets, ReturnDifferent};
ghost use Rattle.c_refute.specs.Points.{finding_at, points, IsComparison, IsFirstDifference};
ghost use Rattle.c_refute.specs.declared.findings.Compared.{Compared};
ghost use Rattle.c_refute.specs.declared.findings.Finding.{Finding};

/// Where a comparison finds two functions different, they return by the meaning these two different
/// outcomes (`returns`), on arguments that meet the precondition (`meets`) and are as many as the
/// points have (`arguments`).
pub fn differences_are_meant()
    ensures returns { (program : Resolved) (f g : ℕ) (precondition : Option Expr)
        (rounds side arity : ℕ) (arguments : List ℤ) (first second : Outcome) →
        IsFirstDifference (finding_at program f g precondition rounds) (points side arity)
        arguments first second →
        ReturnDifferent program f g arguments first second }
    ensures meets { (program : Resolved) (f g : ℕ) (precondition : Option Expr)
        (rounds side arity : ℕ) (arguments : List ℤ) (first second : Outcome) →
        IsFirstDifference (finding_at program f g precondition rounds) (points side arity)
        arguments first second →
        Meets program rounds precondition arguments }
    ensures arguments { (program : Resolved) (f g : ℕ) (precondition : Option Expr)
        (rounds side arity : ℕ) (arguments : List ℤ) (first second : Outcome) →
        IsFirstDifference (finding_at program f g precondition rounds) (points side arity)
        arguments first second →
        length arguments ≡ arity }
{}

/// A comparison has one answer: whatever is found at each point, the first difference, or that
/// there is none and how many points are found alike and undecided, is one.
pub fn comparisons_have_one_answer()
    ensures { (found : List ℤ → Finding) (all : List (List ℤ)) (x y : Compared) →
        IsComparison found all x → IsComparison found all y → x ≡ y }
{}
