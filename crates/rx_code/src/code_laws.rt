//! The laws of translations, each a function with an empty body.
ghost use Rattle.std.specs.Prelude.{◌≡◌, ◌<◌, ℕ, true, false, List, Contains, Some, slice_get};
ghost use Rattle.c_ast.specs.Scoped.{is_scoped, parameter_counts};
ghost use Rattle.c_ast.specs.declared.integers.Integers.{Integers};
ghost use Rattle.c_ast.specs.declared.integers.Integers.TheVariants.{Unbounded, Bits32};
ghost use Rattle.c_ast.specs.declared.program.Resolved.{Resolved};
ghost use Rattle.rx_row.specs.declared.row.Row.{Row};
ghost use Rattle.rx_term.specs.Fitting.{term_fits};
ghost use Rattle.rx_term.specs.Meaning.{Instance};
ghost use Rattle.rx_term.specs.Paired.{IsPaired};
ghost use Rattle.rx_term.specs.WellMade.{IsWellMade};
ghost use Rattle.rx_term.specs.declared.rule_set.RuleParts.{RuleParts};
ghost use Rattle.rx_term.specs.declared.term.Sym.{Sym};
ghost use Rattle.rx_code.specs.Example as sample;
ghost use Rattle.rx_code.specs.Programs.{entry_of, program_code};
ghost use Rattle.rx_code.specs.Reached.{Reached};
ghost use Rattle.rx_code.specs.Rules.{symbol};
ghost use Rattle.rx_code.specs.Translation.{IsBeyond, IsTranslation, goal_at};
ghost use Rattle.rx_code.specs.Carried.{CarriesProgram, acts_in};
ghost use Rattle.rx_code.specs.Doing.{DoAll};

/// The code of a translation carries the program: from the entry of each function on, points carry
/// the code of its body (`carried`). Each function that is reached and is in the program has an
/// entry (`entries`).
pub fn translations_carry_code()
    ensures carried { (integers : Integers) (program : Resolved) → is_scoped program ≡ true →
        (f g : ℕ) (parts : RuleParts) (first second : Sym) →
        (t : IsTranslation integers program f g parts first second) →
        CarriesProgram integers program (program_code integers program t.functions).form }
    ensures entries { (integers : Integers) (program : Resolved) → is_scoped program ≡ true →
        (f g : ℕ) (parts : RuleParts) (first second : Sym) →
        (t : IsTranslation integers program f g parts first second) →
        (h count : ℕ) → Reached program f g h →
        slice_get (parameter_counts program.functions) h ≡ Some count →
        Contains (program_code integers program t.functions).form.entries
        (h, entry_of (program_code integers program t.functions).form.entries h) }
{}

/// The rules of a translation do what is done at each point of its code.
pub fn translations_do_their_instructions()
    ensures { (integers : Integers) (program : Resolved) → is_scoped program ≡ true →
        (f g : ℕ) (parts : RuleParts) (first second : Sym) →
        (t : IsTranslation integers program f g parts first second) →
        DoAll integers (Instance parts.rules)
        (entry_of (program_code integers program t.functions).form.entries)
        (acts_in (program_code integers program t.functions).form) }
{}

/// A translation is well made, and paired: so its rules are single-valued and cover all arguments.
pub fn translations_are_well_made_and_paired()
    ensures made { (integers : Integers) (program : Resolved) → is_scoped program ≡ true →
        (f g : ℕ) (parts : RuleParts) (first second : Sym) →
        IsTranslation integers program f g parts first second → IsWellMade parts }
    ensures paired { (integers : Integers) (program : Resolved) → is_scoped program ≡ true →
        (f g : ℕ) (parts : RuleParts) (first second : Sym) →
        IsTranslation integers program f g parts first second → IsPaired parts }
{}

/// The goal of two functions with n parameters each fits the rule set of their translation.
pub fn goals_fit_their_translation()
    ensures left { (integers : Integers) (program : Resolved) → is_scoped program ≡ true →
        (f g : ℕ) (parts : RuleParts) (first second : Sym) →
        IsTranslation integers program f g parts first second → (n : ℕ) (rows : List Row) →
        slice_get (parameter_counts program.functions) f ≡ Some n →
        term_fits parts (goal_at first second n rows).left ≡ true }
    ensures right { (integers : Integers) (program : Resolved) → is_scoped program ≡ true →
        (f g : ℕ) (parts : RuleParts) (first second : Sym) →
        IsTranslation integers program f g parts first second → (n : ℕ) (rows : List Row) →
        slice_get (parameter_counts program.functions) g ≡ Some n →
        term_fits parts (goal_at first second n rows).right ≡ true }
{}

/// Two functions have one translation: one rule set and one entry each (`parts`, `first`,
/// `second`). Where they have one, nothing that is formed for them is beyond the limits (`apart`).
pub fn there_is_one_translation()
    ensures parts { (integers : Integers) (program : Resolved) (f g : ℕ) (parts others : RuleParts)
        (first second third fourth : Sym) → IsTranslation integers program f g parts first second →
        IsTranslation integers program f g others third fourth → parts ≡ others }
    ensures first { (integers : Integers) (program : Resolved) (f g : ℕ) (parts others : RuleParts)
        (first second third fourth : Sym) → IsTranslation integers program f g parts first second →
        IsTranslation integers program f g others third fourth → first ≡ third }
    ensures second { (integers : Integers) (program : Resolved) (f g : ℕ) (parts others : RuleParts)
        (first second third fourth : Sym) → IsTranslation integers program f g parts first second →
        IsTranslation integers program f g others third fourth → second ≡ fourth }
    ensures apart { (integers : Integers) (program : Resolved) (f g : ℕ) (parts : RuleParts)
        (first second : Sym) → IsTranslation integers program f g parts first second →
        ¬ (IsBeyond integers program f g) }
{}

/// The premises of these laws can be met, by either kind of integers: by a program whose second
/// function calls the third.
pub fn the_premises_can_be_met()
    ensures scoped { is_scoped sample.calls ≡ true }
    ensures translated { IsTranslation Unbounded sample.calls 1 2 sample.calls_parts
        (symbol 0) (symbol 4) }
    ensures ranged { IsTranslation Bits32 sample.calls 1 2 sample.ranged_calls_parts
        (symbol 0) (symbol 4) }
{}
