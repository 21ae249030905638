//! Laws of forming and judging, each a function with an empty body.
ghost use Rattle.std.specs.Prelude.{◌≡◌, ◌≢◌, ◌∷◌, [], ℕ, ℤ, All, List, Option, Some, Ok, Err, slice_get};
ghost use Rattle.rx_cert.specs.Conditions.{conditions};
ghost use Rattle.rx_cert.specs.declared.cert.Cert.{Cert};
ghost use Rattle.rx_row.specs.Holds.{AllHold};
ghost use Rattle.rx_row.specs.declared.row.Row.{Row};
ghost use Rattle.rx_term.specs.declared.rule.Equation.{Equation};
ghost use Rattle.rx_term.specs.declared.rule.Rule.{Rule};
ghost use Rattle.rx_term.specs.declared.rule_set.RuleParts.{RuleParts};
ghost use Rattle.rx_inference.specs.Judging.{Shown, bare, certificates, first_rows, given_to, judged, of_conditions};
ghost use Rattle.rx_inference.specs.Kinds.{formed};
ghost use Rattle.rx_inference.specs.States.{State, applied, taken};
ghost use Rattle.rx_inference.specs.declared.form_end.FormEnd.TheVariants.{NoMemory};
ghost use Rattle.rx_inference.specs.declared.formed_step.Asked.TheVariants.{Refuted, Rows};
ghost use Rattle.rx_inference.specs.declared.formed_step.FormedStep.{FormedStep};
ghost use Rattle.rx_inference.specs.declared.formed_step.Group.{Group};
ghost use Rattle.rx_inference.specs.declared.formed_step.Under.TheVariants.{Goal};
ghost use Rattle.rx_inference.specs.declared.step.Step.{Step};

/// A step without its certificates is formed as with them.
pub fn certificates_are_not_looked_at()
    ensures { (parts : RuleParts) (goal : Option Equation) (hypotheses : List Rule) (step : Step) →
        formed parts goal hypotheses step ≡ formed parts goal hypotheses (bare step) }
{}

/// Forming comes to a step, or to one of four ends: as a definition it never runs out of memory.
pub fn forming_never_runs_out_of_memory()
    ensures { (parts : RuleParts) (goal : Option Equation) (hypotheses : List Rule) (step : Step) →
        formed parts goal hypotheses step ≢ Err NoMemory }
{}

/// A step that is formed, and whose certificates show what it asks, makes the new goals of the
/// first one and keeps the hypothesis.
pub fn shown_steps_are_taken()
    ensures { (parts : RuleParts) (state : State) (step : Step) (f : FormedStep) →
        formed parts (slice_get state.goals 0) state.hypotheses step ≡ Ok f →
        judged (first_rows state.goals) (first_rows f.goals) f.asked (certificates step) ≡ Shown →
        applied parts state step ≡ Ok (taken state f) }
{}

/// Rows that are asked under those of the goal alone are a list of conditions.
pub fn one_group_is_a_condition_list()
    ensures { (old new rows : List Row) (certs : List Cert) →
        judged old new (Rows (record { under = Goal; rows = rows } ∷ [])) certs
        ≡ of_conditions (conditions old (Some rows) certs) }
{}

/// The rows of each group that is shown hold wherever those do that it is given, and rows that are
/// refuted hold nowhere.
pub fn what_is_shown_follows()
    ensures rows { (old new : List Row) (groups : List Group) (certs : List Cert) →
        judged old new (Rows groups) certs ≡ Shown →
        All (λ g. (a : ℕ → ℤ) → AllHold a (given_to old new g.under) → AllHold a g.rows) groups }
    ensures refuted { (old new : List Row) (certs : List Cert) → judged old new Refuted certs ≡
        Shown →
        (a : ℕ → ℤ) → ¬ (AllHold a old) }
{}
