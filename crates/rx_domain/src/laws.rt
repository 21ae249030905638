//! What domains mean, and that rules which keep them stay inside: laws, each a function with an
//! empty body.
ghost use Rattle.std.specs.Prelude.{◌≡◌, ◌↔◌, true, ℕ, [], ℤ, List};
ghost use Rattle.rx_cert.specs.declared.cert.Cert.{Cert};
ghost use Rattle.rx_row.specs.Holds.{AllHold};
ghost use Rattle.rx_rewriting.specs.Premises.{ClosedUnder, ClosedUnderSubterms};
ghost use Rattle.rx_rewriting.specs.Terms.{Ground, Fits};
ghost use Rattle.rx_term.specs.Covered.{KeepsDomains};
ghost use Rattle.rx_term.specs.Domains.{IsInside, MeetsDomains, are_domains, inside_rows, root_domains};
ghost use Rattle.rx_term.specs.Fitting.{term_fits};
ghost use Rattle.rx_term.specs.Meaning.{Instance, ground_at, signature};
ghost use Rattle.rx_term.specs.WellMade.{IsWellMade};
ghost use Rattle.rx_term.specs.declared.rule.Equation.{Equation};
ghost use Rattle.rx_term.specs.declared.rule_set.RuleParts.{RuleParts};
ghost use Rattle.rx_term.specs.declared.term.Term.{Term};
ghost use Rattle.rx_domain.specs.Keeping.{Keeps, keeping};

/// The rows that put a fitting term inside hold exactly where its ground term meets the domains.
/// The inner part of a term that is inside is inside, and the redexes of such terms have arguments
/// of their domains. Where no symbol has a domain, each fitting term is inside.
pub fn inside_rows_put_terms_inside()
    ensures rows { (parts : RuleParts) → are_domains parts.symbols parts.domains ≡ true →
        (a : ℕ → ℤ) (t : Term) → term_fits parts t ≡ true →
        AllHold a (inside_rows parts t).form ↔ MeetsDomains parts (ground_at a t) }
    ensures inner { (parts : RuleParts) → ClosedUnderSubterms (IsInside parts) }
    ensures redexes { (parts : RuleParts) → are_domains parts.symbols parts.domains ≡ true →
        KeepsDomains (IsInside parts) (root_domains parts) }
    ensures without { (parts : RuleParts) → parts.domains ≡ [] → (s : Ground) →
        Fits (signature parts) s → IsInside parts s }
{}

/// Where a fitting goal and the rules of a well made set keep the domains, both sides of the goal
/// are inside at each assignment that meets its rows, and every step under the rules from a term
/// inside gives a term inside.
pub fn kept_domains_are_never_left()
    ensures goal { (parts : RuleParts) → are_domains parts.symbols parts.domains ≡ true →
        (goal : Equation) (lists : List (List Cert)) → keeping parts goal lists ≡ Keeps →
        term_fits parts goal.left ≡ true → term_fits parts goal.right ≡ true →
        (a : ℕ → ℤ) → AllHold a goal.rows →
        IsInside parts (ground_at a goal.left) × IsInside parts (ground_at a goal.right) }
    ensures steps { (parts : RuleParts) → IsWellMade parts →
        are_domains parts.symbols parts.domains ≡ true →
        (goal : Equation) (lists : List (List Cert)) → keeping parts goal lists ≡ Keeps →
        ClosedUnder (IsInside parts) (Instance parts.rules) }
{}
