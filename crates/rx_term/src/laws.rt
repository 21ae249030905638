//! What terms and rules mean as ground terms: laws, each a function with an empty body.
ghost use Rattle.std.specs.Prelude.{◌&&◌, ◌≡◌, ◌↔◌, ◌<◌, ◌≤◌, ◌⊎◌, ◌++◌, ℕ, ℤ, true, Some, List, All, Contains, length};
ghost use Rattle.std.specs.List.{enumerate_from};
ghost use Rattle.std.specs.Option.{option_map};
ghost use Rattle.rx_poly.specs.Substitution.{numbered, updated_assignment};
ghost use Rattle.rx_poly.specs.Value.{value};
ghost use Rattle.rx_poly.specs.declared.body.Body.{Body};
ghost use Rattle.rx_poly.specs.Variables.{uses_below};
ghost use Rattle.rx_rewriting.specs.Premises.{ClosedUnderSubterms, Reducible, ResultsAreNormal, ClosedUnder};
ghost use Rattle.rx_rewriting.specs.Steps.{Either, IsSingleValued, Step};
ghost use Rattle.rx_rewriting.specs.Terms.{Fits, Ground, TermSet, in_context};
ghost use Rattle.rx_row.specs.Holds.{AllHold};
ghost use Rattle.rx_row.specs.Substitution.{subst_rows};
ghost use Rattle.rx_row.specs.Variables.{rows_bound, rows_use_below};
ghost use Rattle.rx_row.specs.declared.row.Row.{Row};
ghost use Rattle.rx_term.specs.Assigned.{assigned};
ghost use Rattle.rx_term.specs.Bounds.{equation_bound, term_bound};
ghost use Rattle.rx_term.specs.Covered.{CanStep, RedexArguments, IsCovered, IsCoveredOver, KeepsDomains};
ghost use Rattle.rx_term.specs.Example.{IsInside, counting, example, negative_call};
ghost use Rattle.rx_term.specs.Fitting.{term_fits};
ghost use Rattle.rx_term.specs.Meaning.{Instance, IsRedex, ground_at, ground_redex, matched, outer_frames, redex_of, signature, values};
ghost use Rattle.rx_term.specs.Paired.{IsPaired};
ghost use Rattle.rx_term.specs.Shapes.{shape_of};
ghost use Rattle.rx_term.specs.Stacks.{suffix_at, replace_at};
ghost use Rattle.rx_term.specs.Substitution.{subst_polys, subst_term};
ghost use Rattle.rx_term.specs.Variables.{arguments_of, term_uses_below};
ghost use Rattle.rx_term.specs.WellMade.{IsWellMade, variables_from};
ghost use Rattle.rx_term.specs.declared.rule.Equation.{Equation};
ghost use Rattle.rx_term.specs.declared.rule.Rule.{Rule};
ghost use Rattle.rx_term.specs.declared.rule_set.RuleParts.{RuleParts};
ghost use Rattle.rx_term.specs.declared.term.Term.{Term};

/// A term with polynomials in place of its variables means what the term does where each variable
/// has the value of its polynomial.
pub fn substitution_and_values_commute()
    ensures { (a : ℕ → ℤ) (ws : List (ℕ × Body)) (t : Term) →
        ground_at a (subst_term ws t) ≡ ground_at (updated_assignment a ws) t }
{}

/// With polynomials in place of its variables a term keeps its shape, its polynomials in order,
/// each changed, and whether it fits.
#[tactic(auto, using(crate::proofs::KeepingLaws::arguments_in_term))]
pub fn substitution_keeps_the_stack()
    ensures shape { (ws : List (ℕ × Body)) (t : Term) → shape_of (subst_term ws t) ≡ shape_of t }
    ensures arguments { (ws : List (ℕ × Body)) (t : Term) →
        arguments_of (subst_term ws t) ≡ subst_polys ws (arguments_of t) }
    ensures fits { (ws : List (ℕ × Body)) (parts : RuleParts) (t : Term) →
        term_fits parts (subst_term ws t) ≡ term_fits parts t }
{}

/// The parts of a fitting term fit, and a fitting term in place of one makes a fitting term.
pub fn replacing_keeps_fitting()
    ensures after { (parts : RuleParts) (n : ℕ) (t s : Term) →
        term_fits parts t ≡ true → suffix_at n t ≡ Some s → term_fits parts s ≡ true }
    ensures replaced { (parts : RuleParts) (inner : Term) → term_fits parts inner ≡ true →
        (n : ℕ) (t : Term) → term_fits parts t ≡ true → term_fits parts (replace_at n t inner) ≡
        true }
{}

/// Two fitting terms of one shape whose polynomials have equal values, one by one, mean one ground
/// term.
pub fn equal_values_make_one_ground_term()
    ensures { (parts : RuleParts) (a b : ℕ → ℤ) (s t : Term) →
        term_fits parts s ≡ true → term_fits parts t ≡ true → shape_of s ≡ shape_of t →
        values a (arguments_of s) ≡ values b (arguments_of t) → ground_at a s ≡ ground_at b t }
{}

/// The part under outer frames means what is under the same ground frames, and so does what
/// replaces it.
#[tactic(auto, using(crate::proofs::RedexLaws::ground_after, crate::proofs::RedexLaws::ground_replaced))]
pub fn parts_stand_under_ground_frames()
    ensures after { (a : ℕ → ℤ) (n : ℕ) (t s : Term) → suffix_at n t ≡ Some s →
        ground_at a t ≡ in_context (outer_frames a n t) (ground_at a s) }
    ensures replaced { (a : ℕ → ℤ) (n : ℕ) (t inner : Term) →
        ground_at a (replace_at n t inner) ≡ in_context (outer_frames a n t) (ground_at a inner) }
{}

/// The redex of a term is a call, or a frame over a result, and means the redex of the ground term;
/// the one has none exactly where the other has none.
#[tactic(auto, using(crate::proofs::RedexLaws::redex_is))]
pub fn redexes_mean_redexes()
    ensures form { (t s : Term) → redex_of t ≡ Some s → IsRedex s }
    ensures ground { (a : ℕ → ℤ) (t : Term) →
        option_map (ground_at a) (redex_of t) ≡ ground_redex (ground_at a t) }
{}

/// The ground terms of a fitting term fit.
pub fn fitting_terms_have_fitting_ground_terms()
    ensures { (parts : RuleParts) (a : ℕ → ℤ) (t : Term) →
        term_fits parts t ≡ true → Fits (signature parts) (ground_at a t) }
{}

/// A rule steps each term that means what its left side does, with polynomials in place of its
/// variables, where its rows hold so; and so it does where the term is under outer frames. This is
/// said of any list of rules, and so of hypotheses too.
pub fn rules_step_their_instances()
    ensures here { (rules : List Rule) (a : ℕ → ℤ) (rule : Rule) (ws : List (ℕ × Body)) (t : Term) →
        Contains rules rule → ground_at a (subst_term ws rule.left) ≡ ground_at a t →
        AllHold a (subst_rows ws rule.rows) →
        Instance rules (ground_at a t) (ground_at a (subst_term ws rule.right)) }
    ensures inside { (rules : List Rule) (a : ℕ → ℤ) (rule : Rule) (ws : List (ℕ × Body)) (t : Term)
        →
        Contains rules rule → ground_at a (subst_term ws rule.left) ≡ ground_at a t →
        AllHold a (subst_rows ws rule.rows) →
        (n : ℕ) (whole : Term) → suffix_at n whole ≡ Some t →
        Step (Instance rules) (ground_at a whole)
        (ground_at a (replace_at n whole (subst_term ws rule.right))) }
{}

/// A rule of a well made set steps each fitting term of its shape at which its rows hold, with the
/// term's polynomials in place of its variables; so it does where that term is under outer frames.
pub fn rules_step_terms_of_their_shape()
    ensures here { (parts : RuleParts) → IsWellMade parts → (a : ℕ → ℤ) (rule : Rule) (t : Term) →
        Contains parts.rules rule → term_fits parts t ≡ true → shape_of rule.left ≡ shape_of t →
        AllHold a (subst_rows (matched t) rule.rows) →
        Instance parts.rules (ground_at a t) (ground_at a (subst_term (matched t) rule.right)) }
    ensures inside { (parts : RuleParts) → IsWellMade parts →
        (a : ℕ → ℤ) (rule : Rule) (n : ℕ) (t part : Term) →
        Contains parts.rules rule → suffix_at n t ≡ Some part → term_fits parts part ≡ true →
        shape_of rule.left ≡ shape_of part → AllHold a (subst_rows (matched part) rule.rows) →
        Step (Instance parts.rules) (ground_at a t)
        (ground_at a (replace_at n t (subst_term (matched part) rule.right))) }
{}

/// Steps by a well made set lead from fitting terms to fitting terms, and none starts at a result.
#[tactic(auto, using(crate::proofs::RuleLaws::steps_fit, crate::proofs::RuleLaws::results_rest))]
pub fn well_made_sets_keep_fitting()
    ensures fit { (parts : RuleParts) → IsWellMade parts →
        ClosedUnder (Fits (signature parts)) (Instance parts.rules) }
    ensures rest { (parts : RuleParts) → IsWellMade parts →
        ResultsAreNormal (Instance parts.rules) }
{}

/// A paired set is single-valued and covered, and has a step at every fitting term that is no
/// result.
#[tactic(auto, using(crate::proofs::PairedLaws::single_valued, crate::proofs::PairedLaws::paired_covers))]
pub fn paired_sets_step_once()
    ensures once { (parts : RuleParts) → IsWellMade parts → IsPaired parts →
        IsSingleValued (Instance parts.rules) }
    ensures covered { (parts : RuleParts) → IsPaired parts → IsCovered parts }
    ensures moves { (parts : RuleParts) → IsWellMade parts → IsPaired parts →
        Reducible (Fits (signature parts)) (Instance parts.rules) }
{}

/// In a covered set each fitting redex has, at all values of its arguments, a rule of its shape
/// whose rows hold there. So in one that is well made each fitting term that is no result has a
/// step.
pub fn covered_sets_step()
    ensures rule { (parts : RuleParts) → IsCovered parts → (t : Term) (a : ℕ → ℤ) →
        IsRedex t → term_fits parts t ≡ true → CanStep parts.rules t a }
    ensures moves { (parts : RuleParts) → IsWellMade parts → IsCovered parts →
        Reducible (Fits (signature parts)) (Instance parts.rules) }
{}

/// Terms that are inside, and the arguments that a redex of each shape may have there.
pub trait Inside {
    ghost inside: { TermSet };

    ghost domains: { RedexArguments };
}

/// The same inside a set of fitting terms that has the inner part of each of its terms: there the
/// rules need to cover no more than the arguments that its redexes have.
pub fn covered_sets_step_inside<I: Inside>()
    requires inner { ClosedUnderSubterms I.inside }
    requires domains { KeepsDomains I.inside I.domains }
    ensures { (parts : RuleParts) → IsWellMade parts → IsCoveredOver I.domains parts →
        ((s : Ground) → I.inside s → Fits (signature parts) s) →
        Reducible I.inside (Instance parts.rules) }
{}

/// Two assignments that agree below a number give a term all of whose variables are below it one
/// ground term, and the same outer frames; rows all of whose variables are below it hold at both or
/// at neither.
pub fn variables_alone_decide_the_ground_term()
    ensures term { (a b : ℕ → ℤ) (n : ℕ) → ((v : ℕ) → v < n → a v ≡ b v) → (t : Term) →
        term_uses_below n t ≡ true → ground_at a t ≡ ground_at b t }
    ensures frames { (a b : ℕ → ℤ) (n : ℕ) → ((v : ℕ) → v < n → a v ≡ b v) → (k : ℕ) (t : Term) →
        term_uses_below n t ≡ true → outer_frames a k t ≡ outer_frames b k t }
    ensures rows { (a b : ℕ → ℤ) (n : ℕ) → ((v : ℕ) → v < n → a v ≡ b v) → (rows : List Row) →
        rows_use_below n rows ≡ true → AllHold a rows → AllHold b rows }
{}

/// At the assignment that a list of integers is, the first variables have these integers as their
/// values. Where arguments replace the first variables, each polynomial and all rows over these
/// have the value, or hold, as at the list of the arguments' values.
pub fn arguments_are_assignments()
    ensures variables { (xs : List ℤ) → values (assigned xs) (variables_from 0 (length xs)) ≡ xs }
    ensures value { (a : ℕ → ℤ) (ps : List Body) (p : Body) → uses_below (length ps) p ≡ true →
        value (updated_assignment a (enumerate_from 0 ps)) p ≡ value (assigned (values a ps)) p }
    ensures rows { (a : ℕ → ℤ) (ps : List Body) (rows : List Row) →
        rows_use_below (length ps) rows ≡ true →
        AllHold (updated_assignment a (enumerate_from 0 ps)) rows ↔ AllHold (assigned (values a ps))
        rows }
{}

/// The premises of these laws can be met at once: by a rule set with rows, a frame and a failure,
/// and inside a set of fitting terms that leaves some out (`outside`). There each term that is no
/// result has a step (`moves`).
pub fn the_premises_can_be_met()
    ensures made { IsWellMade example }
    ensures paired { IsPaired example }
    ensures covered { IsCoveredOver counting example }
    ensures inner { ClosedUnderSubterms IsInside }
    ensures domains { KeepsDomains IsInside counting }
    ensures fitting { (s : Ground) → IsInside s → Fits (signature example) s }
    ensures outside { Fits (signature example) negative_call × (IsInside negative_call → ⊥) }
    ensures moves { Reducible IsInside (Instance example.rules) }
{}

/// All variables of a term, of rows, or of both sides and the rows of an equation are below a
/// number exactly where it is at least the least number above them.
pub fn bounds_are_the_least_above_all()
    ensures term { (n : ℕ) (t : Term) → (term_uses_below n t ≡ true) ↔ (term_bound t ≤ n) }
    ensures rows { (n : ℕ) (rows : List Row) →
        (rows_use_below n rows ≡ true) ↔ (rows_bound rows ≤ n) }
    ensures equation { (n : ℕ) (e : Equation) →
        (((term_uses_below n e.left && term_uses_below n e.right) && rows_use_below n e.rows) ≡
        true)
        ↔ (equation_bound e ≤ n) }
{}

/// Polynomials in place of the first variables, as `at_args` inserts them, are the polynomials by
/// number: with the polynomials of a term these make the left side of a rule of its shape into the
/// term.
#[tactic(auto, using(crate::proofs::TogetherLaws::numbered_in_order))]
pub fn arguments_are_numbered_in_order()
    ensures { (ps : List Body) → numbered ps ≡ enumerate_from 0 ps }
{}

/// What two lists of rules together step without frames over it, one of the two steps so.
pub fn two_lists_step_as_one_does()
    ensures { (rules others : List Rule) (s t : Ground) →
        Instance (rules ++ others) s t ↔ (Instance rules s t ⊎ Instance others s t) }
{}

/// Rules whose right sides fit, as hypotheses, step fitting terms to fitting terms; so they do
/// together with the rules of a well made set.
pub fn fitting_right_sides_keep_fitting()
    ensures alone { (parts : RuleParts) (rules : List Rule) →
        All (λ rule. term_fits parts rule.right ≡ true) rules →
        ClosedUnder (Fits (signature parts)) (Instance rules) }
    ensures together { (parts : RuleParts) (rules : List Rule) →
        All (λ rule. term_fits parts rule.right ≡ true) rules → IsWellMade parts →
        ClosedUnder (Fits (signature parts)) (Either (Instance parts.rules) (Instance rules)) }
{}
