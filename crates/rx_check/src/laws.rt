//! What accepted logs are: laws, each a function with an empty body.
ghost use Rattle.std.specs.Prelude.{◌≡◌, ◌∷◌, [], ℕ, ℤ, All, List, None, Ok, Result, Some};
ghost use Rattle.rx_check.specs.Answers.{Answers, verdict_known};
ghost use Rattle.rx_check.specs.Replay.{log_of};
ghost use Rattle.rx_check.specs.Results.{EndEqual};
ghost use Rattle.rx_check.specs.declared.check_end.CheckEnd.{CheckEnd};
ghost use Rattle.rx_domain.specs.Setting.{bad_domain, with_domains};
ghost use Rattle.rx_proofs.specs.Example.{alike, example, hypothesis};
ghost use Rattle.rx_proofs.specs.Goals.{Fitting, IsFitting};
ghost use Rattle.rx_proofs.specs.Runs.{IsProof};
ghost use Rattle.rx_log.specs.Acceptance.{HasVerdict, IsAccepted, Verdict, kept, used};
ghost use Rattle.rx_log.specs.Lines.{log_lines};
ghost use Rattle.rx_log.specs.declared.log.Log.{Log};
ghost use Rattle.rx_pairs.specs.Pairs.{HasRoot};
ghost use Rattle.rx_pairs.specs.declared.table.RankTable.{RankTable};
ghost use Rattle.rx_rewriting.specs.Premises.{HaveConvertibleNormalForms};
ghost use Rattle.rx_rewriting.specs.Steps.{IsSingleValued};
ghost use Rattle.rx_row.specs.Holds.{AllHold};
ghost use Rattle.rx_row.specs.declared.row.Row.{Row};
ghost use Rattle.rx_term.specs.Meaning.{Instance, ground_at};
ghost use Rattle.rx_term.specs.WellMade.{IsWellMade};
ghost use Rattle.rx_term.specs.declared.rule.Equation.{Equation};
ghost use Rattle.rx_term.specs.declared.rule.Rule.{Rule};
ghost use Rattle.rx_term.specs.declared.rule_set.RuleParts.{RuleParts};

/// Each log has a verdict, and no other.
pub fn each_log_has_one_verdict()
    ensures { (parts : RuleParts) (goal : Equation) (log : Log) →
        (verdict : Verdict) × HasVerdict parts goal log verdict
        × ((other : Verdict) → HasVerdict parts goal log other → other ≡ verdict) }
{}

/// Two answers on one log, by `replay` or line by line, give the same verdict, if each gives one.
pub fn answers_agree()
    ensures { (parts : RuleParts) (goal : Equation) (log : Log) →
        (one two : Result (Unit {0}) CheckEnd) →
        Answers one parts goal log → Answers two parts goal log →
        (first second : Verdict) → verdict_known one ≡ Some first → verdict_known two ≡ Some second →
        first ≡ second }
{}

/// The lines of a log, one after the other, give that log.
pub fn lines_give_their_log()
    ensures { (log : Log) → log_of (log_lines log) ≡ log }
{}

/// For a well made rule set without domains and a goal whose sides fit it, an accepted log is a
/// proof over the rules with its domains, with the hypotheses that its steps keep (`proof`). So at
/// each assignment that meets the goal's rows both sides reach results, and these are convertible by
/// the rules alone (`alike`); where the rules are single-valued, as those of a program are, both
/// sides reach the same one (`equal`).
pub fn accepted_logs_are_proofs()
    ensures proof { (parts : RuleParts) (goal : Equation) (log : Log) → IsWellMade parts →
        parts.domains ≡ [] → IsFitting parts goal → IsAccepted parts goal log →
        (hypotheses : List Rule) × (kept parts goal log ≡ Ok hypotheses)
        × IsProof (used parts log.domains) goal hypotheses log.table }
    ensures alike { (parts : RuleParts) (goal : Equation) (log : Log) → IsWellMade parts →
        parts.domains ≡ [] → IsFitting parts goal → IsAccepted parts goal log →
        (a : ℕ → ℤ) → AllHold a goal.rows →
        HaveConvertibleNormalForms (Fitting parts) (Instance parts.rules)
        (ground_at a goal.left) (ground_at a goal.right) }
    ensures equal { (parts : RuleParts) (goal : Equation) (log : Log) → IsWellMade parts →
        parts.domains ≡ [] → IsFitting parts goal → IsAccepted parts goal log →
        IsSingleValued (Instance parts.rules) → (a : ℕ → ℤ) → AllHold a goal.rows →
        EndEqual (Instance parts.rules) (ground_at a goal.left) (ground_at a goal.right) }
{}

/// Each proof over the rules as they are is that of an accepted log without domains, with its
/// table, whose steps keep its hypotheses (`plain`). Over rules without domains, so is each proof
/// over them with a domain for each symbol, of a log with these or, without symbols, with none (`inside`).
pub fn proofs_have_logs()
    ensures plain { (parts : RuleParts) (goal : Equation) (hypotheses : List Rule)
        (table : RankTable) → IsProof parts goal hypotheses table →
        (log : Log) × (log.domains ≡ None) × (kept parts goal log ≡ Ok hypotheses)
        × (log.table ≡ table) × IsAccepted parts goal log }
    ensures inside { (parts : RuleParts) (lists : List (List Row)) (goal : Equation)
        (hypotheses : List Rule) (table : RankTable) → parts.domains ≡ [] →
        bad_domain parts.symbols lists ≡ None →
        IsProof (with_domains parts lists) goal hypotheses table →
        (log : Log) × (used parts log.domains ≡ with_domains parts lists)
        × (kept parts goal log ≡ Ok hypotheses) × (log.table ≡ table)
        × IsAccepted parts goal log }
{}

/// No hypothesis that the steps of a log keep has a result as its left side: what is kept has a
/// redex.
pub fn kept_hypotheses_have_roots()
    ensures { (parts : RuleParts) (goal : Equation) (log : Log) (hypotheses : List Rule) →
        kept parts goal log ≡ Ok hypotheses → All HasRoot hypotheses }
{}

/// There is an accepted log: its steps keep a hypothesis and use it.
pub fn the_premises_can_be_met()
    ensures { (log : Log) × (kept example alike log ≡ Ok (hypothesis ∷ []))
        × IsAccepted example alike log }
{}
