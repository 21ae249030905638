//! The laws of resolved programs and preconditions, and of the places that names have.

ghost use Rattle.std.specs.Prelude.{◌≡◌, ◌<◌, ℕ, true, List, [], length, Some, Ok};
ghost use Rattle.std.specs.List.{All};
ghost use Rattle.c_lex.specs.declared.token.Token.{Token};
ghost use Rattle.c_ast.specs.Calls.{calls};
ghost use Rattle.c_ast.specs.RowForms.{is_row_form, is_straight};
ghost use Rattle.c_ast.specs.Scoped.{is_scoped, parameter_counts};
ghost use Rattle.c_ast.specs.Variables.{variables};
ghost use Rattle.c_ast.specs.declared.expr.Expr.{Expr};
ghost use Rattle.c_ast.specs.declared.program.Function.{Function};
ghost use Rattle.c_ast.specs.declared.program.Program.{Program};
ghost use Rattle.c_ast.specs.declared.program.Resolved.{Resolved};
ghost use Rattle.c_names.specs.Expressions.{definition_of};
ghost use Rattle.c_names.specs.Places.{place_of_function};
ghost use Rattle.c_names.specs.Preconditions.{resolved_pre};
ghost use Rattle.c_scope.specs.Programs.{scope_of};

/// The slots and the calls of a program are in order once its names are resolved: each variable
/// that is read or assigned has a slot in scope, each declaration takes the next slot, which its
/// initial value doesn't read, and each call gives as many arguments as the called function has
/// parameters, also where nothing leads (`scoped`). Its functions are those of the program as it
/// was read, each at its place with as many parameters (`counts`).
pub fn resolved_programs_are_scoped()
    ensures scoped { (source : List ℕ) (tokens : List Token) (p : Program) (r : Resolved) →
        scope_of source tokens p ≡ Ok r → is_scoped r ≡ true }
    ensures counts { (source : List ℕ) (tokens : List Token) (p : Program) (r : Resolved) →
        scope_of source tokens p ≡ Ok r →
        parameter_counts r.functions ≡ parameter_counts p.functions }
{}

/// A precondition whose names are resolved is a row form exactly where it was one before (`row`),
/// and a straight expression likewise (`straight`).
pub fn resolved_preconditions_keep_the_row_form()
    ensures row { (source : List ℕ) (tokens : List Token) (params pre_source : List ℕ)
        (pre_tokens : List Token) (pre e : Expr) →
        resolved_pre source tokens params pre_source pre_tokens pre ≡ Ok e →
        is_row_form e ≡ is_row_form pre }
    ensures straight { (source : List ℕ) (tokens : List Token) (params pre_source : List ℕ)
        (pre_tokens : List Token) (pre e : Expr) →
        resolved_pre source tokens params pre_source pre_tokens pre ≡ Ok e →
        is_straight e ≡ is_straight pre }
{}

/// A precondition whose names are resolved has no variables but the function's parameters, which
/// have the first slots (`variables`), and calls nothing (`calls`).
pub fn resolved_preconditions_use_parameters_alone()
    ensures variables { (source : List ℕ) (tokens : List Token) (params pre_source : List ℕ)
        (pre_tokens : List Token) (pre e : Expr) →
        resolved_pre source tokens params pre_source pre_tokens pre ≡ Ok e →
        All (λ v. v < length params) (variables e) }
    ensures calls { (source : List ℕ) (tokens : List Token) (params pre_source : List ℕ)
        (pre_tokens : List Token) (pre e : Expr) →
        resolved_pre source tokens params pre_source pre_tokens pre ≡ Ok e → calls e ≡ [] }
{}

/// The place that a name of a call has is that of a function in the list (`definitions`), and so is
/// the place that the bytes of a name have (`spelled`).
pub fn places_are_those_of_functions()
    ensures definitions { (names : List ℕ) (functions : List Function) (name place : ℕ) →
        definition_of names functions name ≡ Some place → place < length functions }
    ensures spelled { (source : List ℕ) (tokens : List Token) (functions : List Function)
        (name : List ℕ) (place : ℕ) →
        place_of_function source tokens functions name ≡ Some place → place < length functions }
{}
