//! Laws of the trees: when the slots and the calls of a resolved program are in order, what that
//! says of it, and which expressions are straight. The functions do nothing; each contract is a
//! law.

ghost use Rattle.std.specs.Prelude.{◌≡◌, ◌≤◌, ◌<◌, ◌+◌, ℕ, true, false, Some};
ghost use Rattle.std.specs.Prelude.{List, length, map, slice_get, nat_lt, ◌&&◌};
ghost use Rattle.std.specs.List.{All, concat, list_all};
ghost use Rattle.c_ast.specs.Calls.{calls_in};
ghost use Rattle.c_ast.specs.Forms as over_parameters;
ghost use Rattle.c_ast.specs.RowForms.{is_straight};
ghost use Rattle.c_ast.specs.Scoped.{is_scoped, is_scoped_expr, slots_after};
ghost use Rattle.c_ast.specs.ScopedPrograms as sample;
ghost use Rattle.c_ast.specs.Variables.{variables};
ghost use Rattle.c_ast.specs.declared.expr.Expr.{Expr};
ghost use Rattle.c_ast.specs.declared.program.Function.{Function};
ghost use Rattle.c_ast.specs.declared.program.Resolved.{Resolved};
ghost use Rattle.c_ast.specs.declared.stmt.Stmt.{Stmt};

/// Small programs, and whether their slots and calls are in order. The first is, and each other has
/// one fault.
pub fn one_fault_is_out_of_order()
    ensures in_order { is_scoped sample.sums_up ≡ true }
    ensures before_declared { is_scoped sample.reads_before_declared ≡ false }
    ensures after_block { is_scoped sample.reads_after_block ≡ false }
    ensures after_for { is_scoped sample.assigns_after_for ≡ false }
    ensures unreached { is_scoped sample.assigns_where_nothing_leads ≡ false }
    ensures own_value { is_scoped sample.reads_itself ≡ false }
    ensures other_count { is_scoped sample.calls_with_two ≡ false }
    ensures no_function { is_scoped sample.calls_another ≡ false }
    ensures slot_left_out { is_scoped sample.leaves_a_slot_out ≡ false }
    ensures slot_again { is_scoped sample.takes_a_slot_again ≡ false }
{}

/// An expression in order reads variables whose slots are in scope (`variables`). A statement in
/// order leaves the slots that it found, and at most one more (`slots`). Each function of a program
/// in order calls functions of the program, also where nothing leads (`calls`).
pub fn scoped_programs_name_what_is_there()
    ensures variables { (counts : List ℕ) (n : ℕ) (e : Expr) →
        is_scoped_expr counts n e ≡ true → All (λ v. v < n) (variables e) }
    ensures slots { (counts : List ℕ) (t : Stmt) (n m : ℕ) →
        slots_after counts t n ≡ Some m → (n ≤ m) × (m ≤ n + 1) }
    ensures calls { (program : Resolved) (place : ℕ) (function : Function) →
        is_scoped program ≡ true → slice_get program.functions place ≡ Some function →
        All (λ g. g < length program.functions) (concat (map calls_in function.body)) }
{}

/// The two tests of straight expressions are one notion: what a straight function of n parameters
/// may return is an expression that may be an operand in a precondition, and whose variables are
/// slots of parameters.
pub fn straight_expressions_are_one_notion()
    ensures { (count : ℕ) (e : Expr) →
        over_parameters.is_straight count e
        ≡ (is_straight e && list_all (λ v. nat_lt v count) (variables e)) }
{}
