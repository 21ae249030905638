//! Lemmas are lawful steps. Each law is a function with an empty body.
ghost use Rattle.std.specs.Prelude.{◌≡◌, []};
ghost use Rattle.rx_term.specs.declared.rule.Equation.{Equation};
ghost use Rattle.rx_term.specs.declared.rule_set.RuleParts.{RuleParts};
ghost use Rattle.rx_lemma.specs.Lawful.{StaysInside};
ghost use Rattle.rx_lemma.specs.LawfulGeneralisations.{GeneralisationsAreLawful, NoDomainsRequireNothing};
ghost use Rattle.rx_lemma.specs.LawfulNaming.{NamingIsLawful};

/// A step on to what naming makes of a goal is formed, and the refuter shows the rows that it asks,
/// where what is made stays inside the domains.
pub fn naming_is_lawful()
    ensures { NamingIsLawful }
{}

/// Over well made rules, a step on to each of the two generalisations of a goal is formed, and the
/// refuter shows the rows that it asks: those that put the generalisation inside the domains too.
pub fn generalisations_are_lawful()
    ensures { GeneralisationsAreLawful }
{}

/// Without domains the rows of a generalisation are those of the goal and of the rules alone.
pub fn no_domains_require_nothing()
    ensures { NoDomainsRequireNothing }
{}

/// Without domains each equation stays inside: nothing is asked for it.
pub fn without_domains_all_stay_inside()
    ensures { (parts : RuleParts) (goal : Equation) → parts.domains ≡ [] → StaysInside parts goal }
{}
