//! One component of the graph of open pairs.
ghost use Rattle.std.specs.Prelude.{◌≡◌, IfOk, IfSome, map};
ghost use Rattle.rx_rank.specs.Answers.{IsComponentFit, pairs_at, partition_of, still_open};
ghost use Rattle.rx_rank.specs.Answers.{tried_as};
ghost use Rattle.rx_rank.specs.Ranking.{component, exchanges, fit_exchanged, or_exchanged};
ghost use Rattle.rx_rank.specs.Ranking.{stated_partition};
ghost use Rattle.rx_solve.specs.Answers.{IsSolver};
ghost use Rattle.rx_solve.specs.Attempts.{first_applying};

use crate::attempt::{Attempt, noted_before};
use crate::exchange::first_exchanged;
use crate::fitting::Fit;
use crate::kind::RankingKind;
use crate::open_component::OpenComponent;
use crate::pair_memo::PairMemo;
use crate::partition::fit_by;
use rx_anchors::{Members, members_of};
use rx_cert::Cert;
use rx_fm::FmEnd;
use rx_pairs::Pair;
use rx_plain::NoMemory;
use rx_row::Constraint;
use rx_term::{Rule, RuleParts};
use std::alloc::Global;

/// How many choices are tried at most with the stated anchors.
const MOST_CHOICES: usize = 4096;

/// What came of the stated anchors, or else in the wider ranking what comes of the exchanges.
fn or_exchanged<S: FnMut(&Constraint) -> Result<Option<Cert>, FmEnd>>(
    alloc: Global,
    component: &OpenComponent,
    members: &Members,
    first: Attempt<Fit>,
    memo: &mut PairMemo,
    solve: &mut S,
) -> Result<Attempt<Fit>, NoMemory>
    requires solver { IsSolver S.FnMut solve.old }
    requires members { partition_of members.now ≡
        stated_partition component.now.parts.now component.now.hypotheses.now component.now.names.now
        component.now.name }
    requires first { IfSome first.made
        (IsComponentFit component.now.kind component.now.parts.now component.now.hypotheses.now
        component.now.names.now component.now.name (pairs_at component.now.pairs.now)) }
    ensures solver { IsSolver S.FnMut solve.new }
    ensures tried { IfOk result (λ t. tried_as
        (λ fit. still_open (pairs_at component.now.pairs.now) fit.falls.items) t ≡
        or_exchanged component.now.kind (tried_as
        (λ fit. still_open (pairs_at component.now.pairs.now) fit.falls.items) first)
        (first_applying (map (fit_exchanged component.now.kind component.now.parts.now
        component.now.hypotheses.now component.now.names.now component.now.name
        (pairs_at component.now.pairs.now))
        (exchanges component.now.parts.now component.now.hypotheses.now component.now.names.now
        component.now.name)))) }
    ensures fit { IfOk result (λ t. IfSome t.made
        (IsComponentFit component.now.kind component.now.parts.now component.now.hypotheses.now
        component.now.names.now component.now.name (pairs_at component.now.pairs.now))) }
{
    match component.kind {
        RankingKind::Plain => return Ok(first),
        RankingKind::Wider => {}
    }
    if first.made.is_some() {
        return Ok(first);
    }
    let noted = first.noted;
    let later = first_exchanged(alloc, component, members, memo, solve)?;
    Ok(noted_before(noted, later))
}

/// The first fit choice of the component with that name, whose pairs these are: the polynomials of
/// its symbols, with the certificates by which all pairs hold and some fall. All candidates are
/// made first. Where a symbol has a domain row and no choice is fit, the choices are tried once
/// more, each with one symbol raised that is no anchor. At most 4,096 choices are tried. In the wider
/// ranking, where none of these is fit, at most 64 exchanges of an anchor with another symbol are
/// tried, each with at most 64 choices in the same way.
pub fn fit_component<S: FnMut(&Constraint) -> Result<Option<Cert>, FmEnd>>(
    alloc: Global,
    kind: RankingKind,
    parts: &RuleParts,
    hypotheses: &[Rule],
    names: &[u32],
    name: u32,
    pairs: &[&Pair],
    memo: &mut PairMemo,
    solve: &mut S,
) -> Result<Attempt<Fit>, NoMemory>
    requires solver { IsSolver S.FnMut solve.old }
    ensures solver { IsSolver S.FnMut solve.new }
    ensures tried { IfOk result (λ t. tried_as
        (λ fit. still_open (pairs_at pairs.now) fit.falls.items) t ≡
        component kind parts.now hypotheses.now names.now name (pairs_at pairs.now)) }
    ensures fit { IfOk result (λ t. IfSome t.made
        (IsComponentFit kind parts.now hypotheses.now names.now name (pairs_at pairs.now))) }
{
    let component = OpenComponent {
        kind,
        parts,
        hypotheses,
        names,
        name,
        pairs,
    };
    let infos = parts.symbols.as_slice();
    let members = members_of(alloc, infos, hypotheses, names, name)?;
    let first = fit_by(alloc, &component, &members, MOST_CHOICES, memo, solve)?;
    or_exchanged(alloc, &component, &members, first, memo, solve)
}
