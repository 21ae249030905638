//! Rule sets with other domains.
ghost use Rattle.std.specs.Prelude.{◌≡◌, IfOk};
ghost use Rattle.rx_domain.specs.Answers.{Sets};
ghost use Rattle.rx_domain.specs.Setting.{bad_domain, with_domains};

use crate::domain_end::DomainEnd;
use rx_plain::Items;
use rx_row::{Constraint, rows_use_below};
use rx_term::{RuleParts, RuleSet, SymInfo};
use std::alloc::{AllocError, Global};

/// The first symbol without a list or whose list isn't over its arguments; the number of symbols
/// where there are more lists.
fn bad_domain(symbols: &[SymInfo], lists: &[Constraint]) -> Option<usize>
    ensures { result ≡ bad_domain symbols.now lists.now }
{
    let mut rest = symbols;
    for (sym, rows) in lists.iter().enumerate() {
        let Some((info, more)) = rest.split_first() else {
            return Some(sym);
        };
        if !rows_use_below(rows.rows(), info.arity) {
            return Some(sym);
        }
        rest = more;
    }
    if rest.is_empty() {
        None
    } else {
        Some(lists.len())
    }
}

/// The same lists of rows once more.
fn copied_lists(alloc: Global, lists: &[Constraint]) -> Result<Items<Constraint>, AllocError>
    ensures { IfOk result (λ made. made ≡ lists.now) }
{
    let mut made = Items::new(alloc);
    for rows in lists {
        made.push(rows.try_clone(alloc)?)?;
    }
    Ok(made)
}

/// The same symbols, rules and failure codes, with these domains.
fn with_domains(parts: RuleParts, domains: Items<Constraint>) -> RuleParts
    ensures { result ≡ with_domains parts domains }
{
    let RuleParts {
        symbols,
        rules,
        fails,
        ..
    } = parts;
    RuleParts {
        symbols,
        domains,
        rules,
        fails,
    }
}

/// The same symbols and rules with these domains, one list of rows for each symbol in order, over
/// the symbol's arguments v0, v1, and so on. BadDomain with the first symbol without a list or
/// whose list uses another variable than its arguments, and with the number of symbols where there
/// are more lists. The rules are copied. Fails else only when out of memory.
pub fn set_domains(
    alloc: Global,
    rules: &RuleSet,
    rows: &[Constraint],
) -> Result<RuleSet, DomainEnd>
    ensures exact { Sets rules.now rows.now result }
{
    if let Some(sym) = bad_domain(rules.symbols(), rows) {
        return Err(DomainEnd::BadDomain(sym));
    }
    let copy = rules.parts().try_clone(alloc)?;
    let parts = with_domains(copy, copied_lists(alloc, rows)?);
    match RuleSet::from_parts(parts) {
        Some(set) => Ok(set),
        None => unreachable!(),
    }
}
