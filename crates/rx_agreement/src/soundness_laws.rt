//! What a proof about the entries of two functions means for the functions: a law, and an example
//! that meets its premises. Each is a function with an empty body.
ghost use Rattle.std.specs.Prelude.{◌≡◌, [], ℕ, ℤ, true, List, Some, length, slice_get};
ghost use Rattle.c_ast.specs.Scoped.{is_scoped, parameter_counts};
ghost use Rattle.c_ast.specs.declared.integers.Integers.{Integers};
ghost use Rattle.c_ast.specs.declared.integers.Integers.TheVariants.{Unbounded};
ghost use Rattle.c_ast.specs.declared.program.Resolved.{Resolved};
ghost use Rattle.rx_agreement.specs.Agreement.{ReturnAlike};
ghost use Rattle.rx_code.specs.Translation.{IsTranslation, goal_at};
ghost use Rattle.rx_proofs.specs.Runs.{IsProof};
ghost use Rattle.rx_pairs.specs.declared.table.RankTable.{RankTable};
ghost use Rattle.rx_row.specs.Holds.{AllHold};
ghost use Rattle.rx_row.specs.declared.row.Row.{Row};
ghost use Rattle.rx_agreement.specs.SoundnessExample.{example, first, parts, second, table};
ghost use Rattle.rx_term.specs.Assigned.{assigned};
ghost use Rattle.rx_term.specs.declared.rule.Rule.{Rule};
ghost use Rattle.rx_term.specs.declared.rule_set.RuleParts.{RuleParts};
ghost use Rattle.rx_term.specs.declared.term.Sym.{Sym};

/// Let there be a translation of two functions of a program, and a proof that their entries are
/// equal under some rows. Then on all integers that meet the rows, as many as both functions have
/// parameters, both return, with one outcome, by the meaning of C and the kind of integers of the
/// translation.
pub fn proofs_show_equal_functions()
    ensures { (integers : Integers) (program : Resolved) → is_scoped program ≡ true →
        (f g : ℕ) (parts : RuleParts) (first second : Sym) →
        IsTranslation integers program f g parts first second →
        (arguments : List ℤ) (rows : List Row) →
        slice_get (parameter_counts program.functions) f ≡ Some (length arguments) →
        slice_get (parameter_counts program.functions) g ≡ Some (length arguments) →
        AllHold (assigned arguments) rows →
        (hypotheses : List Rule) (table : RankTable) →
        IsProof parts (goal_at first second (length arguments) rows) hypotheses table →
        ReturnAlike integers program f g arguments }
{}

/// The premises can be met: by two functions that return 0 (`scoped`), their rule set
/// (`translated`), and a proof of three steps that their entries are equal, under no rows
/// (`proof`). So both return alike (`alike`).
pub fn premises_of_equal_functions_can_be_met()
    ensures scoped { is_scoped example ≡ true }
    ensures translated { IsTranslation Unbounded example 0 1 parts first second }
    ensures proof { IsProof parts (goal_at first second 0 []) [] table }
    ensures alike { ReturnAlike Unbounded example 0 1 [] }
{}
