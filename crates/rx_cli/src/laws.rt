//! Laws of what is reported.
ghost use Rattle.std.specs.Prelude.{◌≡◌, ◌≢◌, ◌≤◌, ℕ, List, Option, Some, length};
ghost use Rattle.c_ast.specs.declared.integers.Integers.TheVariants.{Unbounded};
ghost use Rattle.c_front.specs.declared.stages.Next.TheVariants.{Goes};
ghost use Rattle.rx_command.specs.Commands.{Check, Compare, Find, Functions, Prove, Replay, Rules, command_of};
ghost use Rattle.rx_command.specs.declared.command.Effort.{Effort};
ghost use Rattle.rx_io.specs.Outside.{Names, Rose};
ghost use Rattle.rx_report.specs.declared.ends.Status.{Status};
ghost use Rattle.rx_report.specs.declared.ends.Status.TheVariants as ends;
ghost use Rattle.rx_report.specs.declared.answer.Answer.TheVariants as answer;
ghost use Rattle.rx_report.specs.declared.verdicts.Verdict.{Verdict};
ghost use Rattle.rx_report.specs.declared.verdicts.Verdict.TheVariants as said;
ghost use Rattle.rx_cli.specs.Agreement.{Agrees};
ghost use Rattle.rx_cli.specs.Answers.{AnswersSoundly};
ghost use Rattle.rx_cli.specs.Checks.{IsChecked, longest_log};
ghost use Rattle.rx_cli.specs.Inductions.{IsReplayed, of_induction};
ghost use Rattle.rx_cli.specs.Problems.{asked, posed};
ghost use Rattle.rx_cli.specs.declared.problems.Problem.{Problem};
ghost use Rattle.rx_cli.specs.Proofs.{AreOne};
ghost use Rattle.rx_cli.specs.Refutations.{Refutes};
ghost use Rattle.rx_cli.specs.Run.{Reports};
ghost use Rattle.rx_report.specs.Texts.{text_of};

/// Over files whose contents are known, and of which no call finds a fault, words have one status
/// (`status`), one verdict at most (`verdict`), and one text to be written, but for proofs: what
/// shows the steps of a proof is free, so two of them may differ, but both are logs with the same
/// moves that are accepted for the same problem (`text`). The same holds of reports of any runs,
/// whatever faults their calls find, whose status is no read fault (`any_status`, `any_text`). So
/// `run`'s clauses determine its report there: each answer comes exactly where its cause holds. A
/// law; it does nothing.
pub fn words_have_one_report()
    ensures status { (names : Names) (words : List (List ℕ)) (s u : Status) (t v : List ℕ) →
        Reports (Some names) ⊥ words s t → Reports (Some names) ⊥ words u v → s ≡ u }
    ensures verdict { (names : Names) (words : List (List ℕ)) (v w : Verdict) →
        AnswersSoundly (Some names) (command_of words) (answer.Line v) →
        AnswersSoundly (Some names) (command_of words) (answer.Line w) → v ≡ w }
    ensures text { (names : Names) (words : List (List ℕ)) (s u : Status) (t v : List ℕ) →
        Reports (Some names) ⊥ words s t → Reports (Some names) ⊥ words u v →
        AreOne names words s t v }
    ensures any_status { (names : Names) (words : List (List ℕ)) (s u : Status) (t v : List ℕ)
        (first_before first_now second_before second_now : ℕ) →
        s ≢ ends.ReadFault → u ≢ ends.ReadFault →
        Reports (Some names) (Rose first_before first_now) words s t →
        Reports (Some names) (Rose second_before second_now) words u v → s ≡ u }
    ensures any_text { (names : Names) (words : List (List ℕ)) (s u : Status) (t v : List ℕ)
        (first_before first_now second_before second_now : ℕ) →
        s ≢ ends.ReadFault → u ≢ ends.ReadFault →
        Reports (Some names) (Rose first_before first_now) words s t →
        Reports (Some names) (Rose second_before second_now) words u v →
        AreOne names words s t v }
{}

/// What a search proves, a check accepts. Words that ask for a proof are reported with EQUIVALENT
/// and a text of at most 67,108,864 bytes. Then words that ask for a check of the same functions
/// are reported with EQUIVALENT, where the same source is held and, under the name of the log, this
/// text (`accepted`); so too where a call of the search found a fault on the way (`any`). A law; it
/// does nothing.
pub fn written_logs_are_accepted()
    ensures accepted { (before after : Names) (f : Functions) (effort : Effort) (name text : List ℕ)
        (searching checking : List (List ℕ)) →
        command_of searching ≡ Some (Compare (Prove f effort)) →
        command_of checking ≡ Some (Compare (Check f name)) →
        Reports (Some before) ⊥ searching ends.Equivalent text →
        after f.file ≡ before f.file → after name ≡ Some text → length text ≤ longest_log →
        Reports (Some after) ⊥ checking ends.Equivalent (text_of said.Equivalent) }
    ensures any { (before after : Names) (f : Functions) (effort : Effort) (name text : List ℕ)
        (searching checking : List (List ℕ)) (faults_before faults_now : ℕ) →
        command_of searching ≡ Some (Compare (Prove f effort)) →
        command_of checking ≡ Some (Compare (Check f name)) →
        Reports (Some before) (Rose faults_before faults_now) searching ends.Equivalent text →
        after f.file ≡ before f.file → after name ≡ Some text → length text ≤ longest_log →
        Reports (Some after) ⊥ checking ends.Equivalent (text_of said.Equivalent) }
{}

/// What a search proves of a rule text, a replay accepts. Words that ask for a proof of its equation
/// are reported with a status of yes and a text of at most 67,108,864 bytes. Then words that ask for
/// a replay for the same rule text are reported with INDUCTIVE, where the same rule text is held
/// and, under the name of the log, this text (`accepted`); so too where a call of the search found a
/// fault on the way (`any`). A law; it does nothing.
pub fn written_inductions_are_accepted()
    ensures accepted { (before after : Names) (file : List ℕ) (effort : Effort)
        (name text : List ℕ) (searching replaying : List (List ℕ)) →
        command_of searching ≡ Some (Rules (Find file effort)) →
        command_of replaying ≡ Some (Rules (Replay file name)) →
        Reports (Some before) ⊥ searching ends.Equivalent text →
        after file ≡ before file → after name ≡ Some text → length text ≤ longest_log →
        Reports (Some after) ⊥ replaying ends.Equivalent (text_of said.Inductive) }
    ensures any { (before after : Names) (file : List ℕ) (effort : Effort)
        (name text : List ℕ) (searching replaying : List (List ℕ))
        (faults_before faults_now : ℕ) →
        command_of searching ≡ Some (Rules (Find file effort)) →
        command_of replaying ≡ Some (Rules (Replay file name)) →
        Reports (Some before) (Rose faults_before faults_now) searching ends.Equivalent text →
        after file ≡ before file → after name ≡ Some text → length text ≤ longest_log →
        Reports (Some after) ⊥ replaying ends.Equivalent (text_of said.Inductive) }
{}

/// Two functions of a text that agree by the mathematical integers have no counterexample: where
/// both return alike on all integers that meet the precondition, there are none of these on which
/// they return other outcomes. Of 32-bit integers this isn't said: where both have the range error,
/// they may return different integers by the mathematical ones. A law; it does nothing.
pub fn counterexamples_exclude_proofs()
    ensures { (f : Functions) (source : List ℕ) → f.integers ≡ Unbounded → Agrees source f →
        Refutes source f → ⊥ }
{}

/// A rule text that poses what two functions pose, as `translate` writes it, is judged by a log as
/// these are: what `check` says of the log, `rules` says, but for INDUCTIVE in the place of
/// EQUIVALENT (`alike`); and what `rules` says comes of what `check` says (`back`). A law; it does
/// nothing.
pub fn translated_rules_are_judged_alike()
    ensures alike { (f : Functions) (source text : List ℕ) (problem : Problem)
        (log : Option (List ℕ)) (v : Verdict) → asked f source (Goes problem) →
        posed text (Goes problem) → IsChecked f source log v →
        IsReplayed text log (of_induction v) }
    ensures back { (f : Functions) (source text : List ℕ) (problem : Problem)
        (log : Option (List ℕ)) (w : Verdict) → asked f source (Goes problem) →
        posed text (Goes problem) → IsReplayed text log w →
        (v : Verdict) × IsChecked f source log v × (w ≡ of_induction v) }
{}
