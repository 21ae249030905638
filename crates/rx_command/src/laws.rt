//! What some command lines ask for, and what none asks for: laws, each a function with an empty
//! body.
ghost use Rattle.std.specs.Prelude.{◌≡◌, ℕ, List, None, Some};
ghost use Rattle.c_ast.specs.declared.integers.Integers.TheVariants.{Unbounded};
ghost use Rattle.rx_command.specs.Commands.{Compare, Demo, Functions, Refute, Translate, command_of};
ghost use Rattle.rx_command.specs.declared.command.Extent.{Extent};
ghost use Rattle.rx_command.specs.Examples as example;

/// A proof is searched for with the usual depth and budget (`usual`) or with those that are given
/// (`given`), also under a precondition; a log is replayed (`log`); both functions are run, with
/// the usual box and rounds (`refute`) or with those that are given (`boxed`); the equation of a
/// rule text is proved by a search, with the usual depth (`rules`) or another (`deep_rules`), or by
/// a log (`rules_log`); the rules of two functions are written (`translate`); examples are shown
/// (`demo`). Nothing is asked for by words that name no log (`no_log`), by a depth of 13
/// (`too_deep`), by a number with a 0 in front (`zero`), by a depth beside a log (`beside`) or
/// beside runs (`deep_runs`), by a box beside a log (`boxed_check`), by a box of 1,001
/// (`too_large`), by no rounds (`no_rounds`), by a depth beside the log of a rule text
/// (`deep_replay`), a further log (`two_logs`) or a precondition (`pre_rules`), by a log beside a
/// translation (`log_translate`) or a depth (`deep_translate`), by no examples (`no_examples`) or by
/// 101 (`too_many`), by a depth beside them (`deep_demo`), or by no words at all (`nothing`). 32-bit
/// integers are asked for in a search (`narrow`) and a replay (`narrow_check`), also where their
/// flag comes first (`first_narrow`), and nothing is by this flag twice (`twice_narrow`), with a
/// value (`value_narrow`), or in another mode (`narrow_refute`, `narrow_rules`, `narrow_translate`,
/// `narrow_demo`).
pub fn command_lines_ask()
    ensures usual { command_of example.prove_words ≡ Some example.prove_usual }
    ensures given { command_of example.given_words ≡ Some example.prove_given }
    ensures log { command_of example.check_words ≡ Some example.check_log }
    ensures no_log { command_of example.no_log_words ≡ None }
    ensures too_deep { command_of example.deep_words ≡ None }
    ensures zero { command_of example.zero_words ≡ None }
    ensures beside { command_of example.beside_words ≡ None }
    ensures refute { command_of example.refute_words ≡ Some example.refute_usual }
    ensures boxed { command_of example.boxed_words ≡ Some example.refute_boxed }
    ensures deep_runs { command_of example.deep_refute_words ≡ None }
    ensures boxed_check { command_of example.boxed_check_words ≡ None }
    ensures too_large { command_of example.large_box_words ≡ None }
    ensures no_rounds { command_of example.no_rounds_words ≡ None }
    ensures rules { command_of example.rules_words ≡ Some example.rules_usual }
    ensures deep_rules { command_of example.deep_rules_words ≡ Some example.rules_deep }
    ensures rules_log { command_of example.replay_words ≡ Some example.rules_log }
    ensures deep_replay { command_of example.deep_replay_words ≡ None }
    ensures two_logs { command_of example.two_logs_words ≡ None }
    ensures pre_rules { command_of example.pre_rules_words ≡ None }
    ensures translate { command_of example.translate_words ≡ Some example.translate_both }
    ensures log_translate { command_of example.log_translate_words ≡ None }
    ensures deep_translate { command_of example.deep_translate_words ≡ None }
    ensures demo { command_of example.demo_words ≡ Some (Demo 100) }
    ensures no_examples { command_of example.empty_demo_words ≡ None }
    ensures too_many { command_of example.long_demo_words ≡ None }
    ensures deep_demo { command_of example.deep_demo_words ≡ None }
    ensures narrow { command_of example.narrow_words ≡ Some example.prove_narrow }
    ensures narrow_check { command_of example.narrow_check_words ≡ Some example.check_narrow }
    ensures first_narrow { command_of example.first_narrow_words ≡ Some example.check_narrow }
    ensures twice_narrow { command_of example.twice_narrow_words ≡ None }
    ensures value_narrow { command_of example.value_narrow_words ≡ None }
    ensures narrow_refute { command_of example.narrow_refute_words ≡ None }
    ensures narrow_rules { command_of example.narrow_rules_words ≡ None }
    ensures narrow_translate { command_of example.narrow_translate_words ≡ None }
    ensures narrow_demo { command_of example.narrow_demo_words ≡ None }
    ensures nothing { command_of example.no_words ≡ None }
{}

/// Runs and translations are asked for by the mathematical integers alone (`runs`, `rules`).
pub fn other_modes_are_unbounded()
    ensures runs { (words : List (List ℕ)) (f : Functions) (extent : Extent) →
        command_of words ≡ Some (Compare (Refute f extent)) → f.integers ≡ Unbounded }
    ensures rules { (words : List (List ℕ)) (f : Functions) →
        command_of words ≡ Some (Translate f) → f.integers ≡ Unbounded }
{}
