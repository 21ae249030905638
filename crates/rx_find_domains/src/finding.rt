//! The domains that are found.
ghost use Rattle.std.specs.Prelude.{◌≡◌, None, IfOk};
ghost use Rattle.rx_domain.specs.Keeping.{Keeps, keeping};
ghost use Rattle.rx_domain.specs.Setting.{bad_domain, with_domains};
ghost use Rattle.rx_solve.specs.Answers.{IsSolver};
ghost use Rattle.rx_find_domains.specs.Candidates.{all_candidates};
ghost use Rattle.rx_find_domains.specs.Finding.{found_domains, settled};
ghost use Rattle.rx_find_domains.specs.Kept.{AreAllKeeps};

use crate::candidates::all_candidates;
use crate::groups::find_groups;
use crate::keeps::find_keeps;
use crate::passes::settle;
use rx_cert::Cert;
use rx_domain::Domains;
use rx_fm::FmEnd;
use rx_plain::{Items, NoMemory};
use rx_row::Constraint;
use rx_term::{Equation, RuleSet};
use std::alloc::Global;

/// The candidates of each symbol.
fn candidate_lists(
    alloc: Global,
    rules: &RuleSet,
    goal: &Equation,
) -> Result<Vec<Constraint>, NoMemory>
    ensures { IfOk result (λ lists. lists.items ≡ all_candidates rules.now goal.now) }
{
    let parts = rules.parts();
    if parts.symbols.len() > u32::MAX as usize {
        return Err(NoMemory);
    }
    let names = find_groups(alloc, parts)?;
    let lists = all_candidates(alloc, names.as_slice(), parts, goal)?;
    Ok(lists)
}

/// The rows that `settled_domains` keeps of these lists, without the certificates. Fails only where
/// there is no memory.
pub fn settle_rows<S: FnMut(&Constraint) -> Result<Option<Cert>, FmEnd>>(
    alloc: Global,
    rules: &RuleSet,
    goal: &Equation,
    lists: Vec<Constraint>,
    solve: &mut S,
) -> Result<Items<Constraint>, NoMemory>
    requires solver { IsSolver S.FnMut solve.old }
    ensures solver { IsSolver S.FnMut solve.new }
    ensures rows { IfOk result (λ rows. rows ≡ settled rules.now goal.now lists.items) }
{
    let mut lists = lists;
    settle(alloc, rules.parts(), goal, &mut lists, solve)?;
    Ok(Items::from_vec(lists))
}

/// Domains for the symbols of the rules: of these lists, one for each symbol over its own arguments,
/// the rows that both sides of the goal and the right sides of the rules keep, as the solver shows
/// it, with certificates of that. A row is dropped as soon as it isn't shown somewhere, until
/// nothing is; what passes the limits isn't shown. The rules' own domains aren't looked at. Fails
/// only where there is no memory.
pub fn settled_domains<S: FnMut(&Constraint) -> Result<Option<Cert>, FmEnd>>(
    alloc: Global,
    rules: &RuleSet,
    goal: &Equation,
    lists: Vec<Constraint>,
    solve: &mut S,
) -> Result<Domains, NoMemory>
    requires solver { IsSolver S.FnMut solve.old }
    requires lawful { bad_domain rules.now.symbols lists.items ≡ None }
    ensures solver { IsSolver S.FnMut solve.new }
    ensures rows { IfOk result (λ found. found.rows ≡ settled rules.now goal.now lists.items) }
    ensures lawful { IfOk result (λ found. bad_domain rules.now.symbols found.rows ≡ None) }
    ensures keeps { IfOk result (λ found.
        keeping (with_domains rules.now found.rows) goal.now found.keeps ≡ Keeps) }
    ensures certificates { IfOk result (λ found.
        AreAllKeeps (with_domains rules.now found.rows) goal.now found.keeps) }
{
    let rows = settle_rows(alloc, rules, goal, lists, solve)?;
    let keeps = find_keeps(alloc, rules, goal, rows.as_slice(), solve)?;
    Ok(Domains { rows, keeps })
}

/// Domains for the symbols of the rules: rows that both sides of the goal and the right sides of
/// the rules keep, as the solver shows it, with certificates of that. The rules' own domains aren't
/// looked at.
///
/// Symbols that a chain of pairs links are one group; a pair whose right symbol is the entry of a
/// function links none. The rows of a symbol are taken from the rows of the goal, where a redex of
/// it is of the symbol's group, and of the rules whose left side's outermost symbol is: the first
/// twelve of those over the symbol's arguments, each once. Of these a row is dropped as soon as it
/// isn't shown somewhere, until nothing is. What passes the limits isn't shown.
///
/// Fails only where there is no memory, which is also the answer for 2^32 symbols or more.
pub fn find_domains<S: FnMut(&Constraint) -> Result<Option<Cert>, FmEnd>>(
    alloc: Global,
    rules: &RuleSet,
    goal: &Equation,
    solve: &mut S,
) -> Result<Domains, NoMemory>
    requires solver { IsSolver S.FnMut solve.old }
    ensures solver { IsSolver S.FnMut solve.new }
    ensures rows { IfOk result (λ found. found.rows ≡ found_domains rules.now goal.now) }
    ensures lawful { IfOk result (λ found. bad_domain rules.now.symbols found.rows ≡ None) }
    ensures keeps { IfOk result (λ found.
        keeping (with_domains rules.now found.rows) goal.now found.keeps ≡ Keeps) }
    ensures certificates { IfOk result (λ found.
        AreAllKeeps (with_domains rules.now found.rows) goal.now found.keeps) }
{
    let lists = candidate_lists(alloc, rules, goal)?;
    settled_domains(alloc, rules, goal, lists, solve)
}
