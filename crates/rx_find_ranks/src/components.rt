//! The first fit choices of the components one after the other, as one.
ghost use Rattle.std.specs.Prelude.{◌≡◌, ◌≤◌, ◌^◌, ℕ, IfOk, IfSome, List, [], length};
ghost use Rattle.rx_rank.specs.Answers.{IsComponentFit, still_open, tried_as};
ghost use Rattle.rx_rank.specs.Ranking.{component};
ghost use Rattle.rx_rank.specs.Tries.{all_made};
ghost use Rattle.rx_find_ranks.specs.Groups.{groups_in, ungrouped};
ghost use Rattle.rx_find_ranks.specs.Joined.{AreJoined, IsFitBelow, IsNext, IsOneMore, tries_from};
ghost use Rattle.rx_find_ranks.specs.Tables.{pairs_open};
ghost use Rattle.rx_solve.specs.Answers.{IsSolver};

use crate::lending::pairs_of;
use crate::open_pair::OpenPair;
use crate::overlays::overlay;
use crate::problem::RankingProblem;
use rx_anchors::without_polynomials;
use rx_cert::Cert;
use rx_fm::FmEnd;
use rx_plain::NoMemory;
use rx_poly::Poly;
use rx_rank::{Attempt, Fit, PairMemo, fit_component};
use rx_row::Constraint;
use std::alloc::Global;

/// The entries of one component.
#[derive(Drop)]
struct Group<'a> {
    /// By symbol the name of its component.
    names: &'a [u32],
    /// The name of this one.
    name: u32,
    /// Its entries.
    entries: &'a [OpenPair],
}

/// Two fits as one.
fn join_fits(first: Fit, second: Fit) -> Result<Fit, NoMemory>
    ensures { IfOk result (AreJoined first second) }
{
    let Fit {
        values,
        holds,
        falls,
    } = first;
    let mut values = values;
    let mut holds = holds;
    let mut falls = falls;
    let mut more_holds = second.holds;
    let mut more_falls = second.falls;
    overlay(&mut values, second.values);
    holds.append(&mut more_holds)?;
    falls.append(&mut more_falls)?;
    Ok(Fit {
        values,
        holds,
        falls,
    })
}

/// The fit of no component.
fn no_fit(alloc: Global, problem: &RankingProblem) -> Result<Fit, NoMemory>
    ensures { IfOk result (λ fit. (names : List ℕ) →
        IsFitBelow problem.now.rules.now.symbols names 0 [] fit) }
{
    Ok(Fit {
        values: without_polynomials(alloc, problem.symbols())?,
        holds: Vec::new(alloc),
        falls: Vec::new(alloc),
    })
}

/// The first fit choice of the component.
fn fit_entries<S: FnMut(&Constraint) -> Result<Option<Cert>, FmEnd>>(
    alloc: Global,
    problem: &RankingProblem,
    group: &Group,
    memo: &mut PairMemo,
    solve: &mut S,
) -> Result<Attempt<Fit>, NoMemory>
    requires solver { IsSolver S.FnMut solve.old }
    ensures solver { IsSolver S.FnMut solve.new }
    ensures tried { IfOk result (λ t. tried_as
        (λ fit. still_open (pairs_open group.now.entries.now) fit.falls.items) t ≡
        component problem.now.kind problem.now.rules.now problem.now.hypotheses.now
        group.now.names.now group.now.name (pairs_open group.now.entries.now)) }
    ensures fit { IfOk result (λ t. IfSome t.made
        (IsComponentFit problem.now.kind problem.now.rules.now problem.now.hypotheses.now
        group.now.names.now group.now.name (pairs_open group.now.entries.now))) }
{
    let lent = pairs_of(alloc, group.entries)?;
    fit_component(
        alloc,
        problem.kind,
        problem.rules.parts(),
        problem.hypotheses,
        group.names,
        group.name,
        lent.as_slice(),
        memo,
        solve,
    )
}

/// The fit before with that of one component more, if it has one.
fn join_next(before: Fit, tried: Attempt<Fit>) -> Result<Attempt<Fit>, NoMemory>
    ensures { IfOk result (IsNext before tried) }
{
    let noted = tried.noted;
    match tried.made {
        Some(fit) => Ok(Attempt {
            made: Some(join_fits(before, fit)?),
            noted,
        }),
        None => Ok(Attempt { made: None, noted }),
    }
}

/// The fit so far with the first fit choice of the component; without an entry nothing is tried.
fn fit_one_more<S: FnMut(&Constraint) -> Result<Option<Cert>, FmEnd>>(
    alloc: Global,
    problem: &RankingProblem,
    group: &Group,
    before: Fit,
    memo: &mut PairMemo,
    solve: &mut S,
) -> Result<Attempt<Fit>, NoMemory>
    requires solver { IsSolver S.FnMut solve.old }
    ensures solver { IsSolver S.FnMut solve.new }
    ensures more { IfOk result (IsOneMore problem.now.kind problem.now.rules.now
        problem.now.hypotheses.now group.now.names.now group.now.name
        (pairs_open group.now.entries.now) before) }
{
    if group.entries.len() == 0 {
        return Ok(Attempt {
            made: Some(before),
            noted: false,
        });
    }
    let tried = fit_entries(alloc, problem, group, memo, solve)?;
    join_next(before, tried)
}

/// The first fit choices of all components, whose entries these are by the components' names, up to
/// the first component that has none.
pub(crate) fn fit_groups<S: FnMut(&Constraint) -> Result<Option<Cert>, FmEnd>>(
    alloc: Global,
    problem: &RankingProblem,
    names: &[u32],
    groups: &[Vec<OpenPair>],
    memo: &mut PairMemo,
    solve: &mut S,
) -> Result<Attempt<Fit>, NoMemory>
    requires solver { IsSolver S.FnMut solve.old }
    requires few { length groups.now ≤ 2 ^ 32 }
    ensures solver { IsSolver S.FnMut solve.new }
    ensures tried { IfOk result (λ t. tried_as
        (λ fit. still_open (pairs_open (ungrouped (groups_in groups.now))) fit.falls.items) t ≡
        all_made (tries_from problem.now.kind problem.now.rules.now problem.now.hypotheses.now
        names.now 0 (groups_in groups.now))) }
    ensures fit { IfOk result (λ t. IfSome t.made (IsFitBelow problem.now.rules.now.symbols
        names.now (length groups.now) (pairs_open (ungrouped (groups_in groups.now))))) }
{
    let mut fit = no_fit(alloc, problem)?;
    let mut noted = false;
    for (name, group) in groups.iter().enumerate() {
        let group = Group {
            names,
            name: name as u32,
            entries: group.as_slice(),
        };
        let tried = fit_one_more(alloc, problem, &group, fit, memo, solve)?;
        noted |= tried.noted;
        match tried.made {
            Some(more) => fit = more,
            None => return Ok(Attempt { made: None, noted }),
        }
    }
    Ok(Attempt {
        made: Some(fit),
        noted,
    })
}
