//! The domains of a log while its lines come, and the rules with them.
ghost use Rattle.std.specs.Prelude.{◌≡◌, ◌∷◌, ◌++◌, [], List, Option, Some, option_map, unwrap_or, IfOk, OnOk};
ghost use Rattle.rx_domain.specs.declared.domains.Domains.{Domains};
ghost use Rattle.rx_row.specs.declared.row.Row.{Row};
ghost use Rattle.rx_logstate.specs.Following.{AreMade, Holds, MakesSet};

use rx_domain::{DomainEnd, set_domains};
use rx_plain::{Items, NoMemory};
use rx_row::Constraint;
use rx_term::RuleSet;
use std::alloc::Global;

/// The domains of a log as far as they have come, and the rules with them.
#[derive(Drop)]
pub(crate) struct Inside {
    /// The domains, where the log has any.
    pub rows: Option<Items<Constraint>>,
    /// The rules with them, once they are made.
    pub set: Option<RuleSet>,
}

/// The rules with these domains; none where they aren't lawful.
fn rules_inside(
    alloc: Global,
    rules: &RuleSet,
    rows: &[Constraint],
) -> Result<Option<RuleSet>, NoMemory>
    ensures { IfOk result (MakesSet rules.now rows.now) }
{
    match set_domains(alloc, rules, rows) {
        Ok(set) => Ok(Some(set)),
        Err(DomainEnd::BadDomain(_)) => Ok(None),
        Err(DomainEnd::NotKept(_) | DomainEnd::Large(_) | DomainEnd::NoMemory) => Err(NoMemory),
    }
}

impl Inside {
    /// Keeps one more domain, where the log has any.
    pub(crate) fn push(&mut self, rows: Constraint) -> Result<(), NoMemory>
        ensures { OnOk result (self.new ≡ record self.old {
          rows = option_map (λ (lists : List (List Row)). lists ++ rows ∷ []) self.old.rows;
        }) }
    {
        match &mut self.rows {
            Some(lists) => {
                lists.push(rows)?;
                Ok(())
            }
            None => Ok(()),
        }
    }

    /// Begins with no domain.
    pub(crate) fn begin(&mut self, alloc: Global)
        ensures { self.new ≡ record self.old { rows = Some [] } }
    {
        self.rows = Some(Items::new(alloc));
    }

    /// Keeps the rules.
    fn put(&mut self, set: RuleSet)
        ensures { self.new ≡ record self.old { set = Some set } }
    {
        self.set = Some(set);
    }

    /// Makes the rules with the domains of the log; false where the domains aren't lawful.
    pub(crate) fn make(&mut self, alloc: Global, rules: &RuleSet) -> Result<bool, NoMemory>
        ensures rows { self.new.rows ≡ self.old.rows }
        ensures made { IfOk result (λ lawful. (domains : Option Domains) →
            Holds self.old rules.now domains → AreMade lawful self.new rules.now domains) }
    {
        if self.set.is_some() {
            return Ok(true);
        }
        let Some(rows) = &self.rows else {
            return Ok(true);
        };
        match rules_inside(alloc, rules, rows.as_slice())? {
            Some(set) => {
                self.put(set);
                Ok(true)
            }
            None => Ok(false),
        }
    }

    /// The rules with the domains of the log, where they are made, and else the given ones.
    pub(crate) fn rules<'a>(&'a self, given: &'a RuleSet) -> &'a RuleSet
        ensures { result.now ≡ unwrap_or self.now.set given.now }
    {
        match &self.set {
            Some(set) => set,
            None => given,
        }
    }
}
