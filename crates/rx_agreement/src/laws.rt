//! The rules of a translation agree with the meaning of C, by either kind of integers: laws, each a
//! function with an empty body.
ghost use Rattle.std.specs.Prelude.{◌≡◌, ◌↔◌, ℕ, ℤ, true, [], ◌∷◌, List, Contains, Some, length, pos, slice_get};
ghost use Rattle.c_ast.specs.RowForms.{is_row_form};
ghost use Rattle.c_ast.specs.Scoped.{is_scoped, parameter_counts};
ghost use Rattle.c_ast.specs.declared.expr.Expr.{Expr};
ghost use Rattle.c_ast.specs.declared.integers.Integers.{Integers};
ghost use Rattle.c_ast.specs.declared.integers.Integers.TheVariants.{Unbounded, Bits32};
ghost use Rattle.c_ast.specs.declared.program.Resolved.{Resolved};
ghost use Rattle.c_meaning.specs.Outcomes.{Range, Value, Error};
ghost use Rattle.c_meaning.specs.Programs.{Returns};
ghost use Rattle.rx_rewriting.specs.Steps.{Reaches};
ghost use Rattle.rx_rewriting.specs.Terms as stack;
ghost use Rattle.rx_row.specs.Holds.{AllHold};
ghost use Rattle.rx_row.specs.declared.row.Row.{Row};
ghost use Rattle.rx_term.specs.Assigned.{assigned};
ghost use Rattle.rx_term.specs.Meaning.{Instance, ground_at};
ghost use Rattle.rx_term.specs.Paired.{IsPaired};
ghost use Rattle.rx_term.specs.WellMade.{IsWellMade};
ghost use Rattle.rx_term.specs.declared.rule_set.RuleParts.{RuleParts};
ghost use Rattle.rx_term.specs.declared.term.Sym.{Sym};
ghost use Rattle.rx_code.specs.Bounds.{rows_in};
ghost use Rattle.rx_code.specs.Example.{between};
ghost use Rattle.rx_code.specs.Programs.{entry_of, program_code};
ghost use Rattle.rx_code.specs.Reached.{Reached};
ghost use Rattle.rx_code.specs.Rules.{symbol};
ghost use Rattle.rx_code.specs.Translation.{IsTranslation, goal_at};
ghost use Rattle.rx_code.specs.declared.code.Code.{Code};
ghost use Rattle.rx_code.specs.Carried.{CarriesProgram, acts_in};
ghost use Rattle.rx_code.specs.Doing.{DoAll};
ghost use Rattle.rx_agreement.specs.Agreement.{AgreeOn, AreInts, MeansItsRows, ReachConvertible, ReturnAlike};
ghost use Rattle.rx_agreement.specs.Example.{example, example_parts};
ghost use Rattle.rx_agreement.specs.RangeExample as sum;

/// Let code carry a program, and let the rules of a well made and paired set do what is done in the
/// code. Then each function that has an entry returns an outcome, on as many integers as it has
/// parameters, exactly where its entry at these integers reaches that outcome by steps of the
/// rules. Where points lie and how they are numbered doesn't matter.
pub fn carried_code_agrees_with_the_meaning()
    ensures { (integers : Integers) (program : Resolved) (code : Code) →
        CarriesProgram integers program code →
        (parts : RuleParts) → IsWellMade parts → IsPaired parts →
        DoAll integers (Instance parts.rules) (entry_of code.entries) (acts_in code) →
        (f symbol : ℕ) → Contains code.entries (f, symbol) →
        AgreeOn integers program parts.rules f symbol }
{}

/// The rules of a translation agree with the meaning of C, both by one kind of integers: each
/// function that the two reach returns an outcome, on as many integers as it has parameters,
/// exactly where its entry at these integers reaches that outcome by steps of the rules
/// (`reached`); so do the two themselves (`first`, `second`). That the arguments are of the kind
/// isn't asked.
pub fn rules_and_meaning_agree()
    ensures reached { (integers : Integers) (program : Resolved) → is_scoped program ≡ true →
        (f g : ℕ) (parts : RuleParts) (first second : Sym) →
        (t : IsTranslation integers program f g parts first second) →
        (h : ℕ) → Reached program f g h →
        AgreeOn integers program parts.rules h
        (entry_of (program_code integers program t.functions).form.entries h) }
    ensures first { (integers : Integers) (program : Resolved) → is_scoped program ≡ true →
        (f g : ℕ) (parts : RuleParts) (first second : Sym) →
        IsTranslation integers program f g parts first second →
        AgreeOn integers program parts.rules f first.0 }
    ensures second { (integers : Integers) (program : Resolved) → is_scoped program ≡ true →
        (f g : ℕ) (parts : RuleParts) (first second : Sym) →
        IsTranslation integers program f g parts first second →
        AgreeOn integers program parts.rules g second.0 }
{}

/// Where both entries at the same integers reach results that are convertible by the rules, both
/// functions return on these integers, with one outcome.
pub fn convertible_results_are_one_outcome()
    ensures { (integers : Integers) (program : Resolved) → is_scoped program ≡ true →
        (f g : ℕ) (parts : RuleParts) (first second : Sym) →
        IsTranslation integers program f g parts first second → (arguments : List ℤ) →
        slice_get (parameter_counts program.functions) f ≡ Some (length arguments) →
        slice_get (parameter_counts program.functions) g ≡ Some (length arguments) →
        ReachConvertible parts.rules (stack.Call first.0 arguments) (stack.Call second.0 arguments)
        →
        ReturnAlike integers program f g arguments }
{}

/// Where both sides of the goal of two functions reach results that are convertible by the rules,
/// at all assignments that meet its rows, both functions return on all integers that meet the rows,
/// with one outcome.
pub fn goals_speak_of_both_functions()
    ensures { (integers : Integers) (program : Resolved) → is_scoped program ≡ true →
        (f g : ℕ) (parts : RuleParts) (first second : Sym) →
        IsTranslation integers program f g parts first second → (n : ℕ) (rows : List Row) →
        slice_get (parameter_counts program.functions) f ≡ Some n →
        slice_get (parameter_counts program.functions) g ≡ Some n →
        ((a : ℕ → ℤ) → AllHold a rows → ReachConvertible parts.rules
        (ground_at a (goal_at first second n rows).left)
        (ground_at a (goal_at first second n rows).right)) →
        (arguments : List ℤ) → length arguments ≡ n → AllHold (assigned arguments) rows →
        ReturnAlike integers program f g arguments }
{}

/// A precondition has a value on all integers, and its rows hold on them exactly where that isn't
/// 0: so what meets the rows is what meets the precondition by the meaning of C.
pub fn preconditions_mean_their_rows()
    ensures { (program : Resolved) (pre : Expr) (arguments : List ℤ) → is_row_form pre ≡ true →
        MeansItsRows program pre arguments }
{}

/// The rows of a goal, made from those of its precondition, hold at the arguments exactly where
/// these do and the arguments are integers of the kind.
pub fn bounds_hold()
    ensures { (integers : Integers) (rows : List Row) (arguments : List ℤ) →
        AllHold (assigned arguments) (rows_in integers (length arguments) rows) ↔
        (AllHold (assigned arguments) rows × AreInts integers arguments) }
{}

/// The premises of these laws can be met: by a program with a loop, a `break`, a call and a
/// division that may fail (`scoped`, `translated`). Its second function returns 1 at 1, after the
/// `break` and the call, and has the division error at 0; so its entry reaches these results
/// (`returned`, `failed`). And by a precondition with `&&` (`precondition`).
pub fn the_premises_can_be_met()
    ensures scoped { is_scoped example ≡ true }
    ensures translated { IsTranslation Unbounded example 1 0 example_parts (symbol 3) (symbol 0) }
    ensures returned { Reaches (Instance example_parts.rules) (stack.Call 3 (pos 1 ∷ []))
        (stack.Return (pos 1)) }
    ensures failed { Reaches (Instance example_parts.rules) (stack.Call 3 (pos 0 ∷ []))
        (stack.Fail 1) }
    ensures precondition { is_row_form between ≡ true }
{}

/// So they can over 32-bit integers, by a function that returns its parameter plus 1 (`scoped`,
/// `translated`). At 2147483646 it returns the greatest such integer, and its entry reaches that
/// (`returned`, `reached`); at the greatest it has the range error, and its entry reaches failure 2
/// (`beyond`, `failed`).
pub fn range_errors_are_reached()
    ensures scoped { is_scoped sum.example ≡ true }
    ensures translated { IsTranslation Bits32 sum.example 0 0 sum.example_parts
        (symbol 0) (symbol 0) }
    ensures returned { Returns Bits32 sum.example 0 (pos 2147483646 ∷ []) (Value (pos 2147483647)) }
    ensures reached { Reaches (Instance sum.example_parts.rules)
        (stack.Call 0 (pos 2147483646 ∷ [])) (stack.Return (pos 2147483647)) }
    ensures beyond { Returns Bits32 sum.example 0 (pos 2147483647 ∷ []) (Error Range) }
    ensures failed { Reaches (Instance sum.example_parts.rules)
        (stack.Call 0 (pos 2147483647 ∷ [])) (stack.Fail 2) }
{}
