//! The exchanges of a component: another symbol is an anchor in place of one of them.
ghost use Rattle.std.specs.Prelude.{◌≡◌, IfOk, IfSome, map, not, option_copied, slice_get};
ghost use Rattle.std.specs.List.{filter};
ghost use Rattle.rx_rank.specs.Answers.{IsComponentFit, pairs_at, partition_of, still_open};
ghost use Rattle.rx_rank.specs.Answers.{tried_as};
ghost use Rattle.rx_rank.specs.Ranking.{all_exchanges, exchanged, exchanges, fit_exchanged};
ghost use Rattle.rx_rank.specs.Ranking.{is_exchanged, stated_partition};
ghost use Rattle.rx_solve.specs.Answers.{IsSolver};
ghost use Rattle.rx_solve.specs.Attempts.{first_applying};

use crate::attempt::Attempt;
use crate::fitting::Fit;
use crate::open_component::OpenComponent;
use crate::pair_memo::PairMemo;
use crate::partition::fit_by;
use rx_anchors::{Members, is_anchor, symbols_in};
use rx_cert::Cert;
use rx_fm::FmEnd;
use rx_plain::NoMemory;
use rx_row::Constraint;
use std::alloc::Global;

/// How many exchanges of a component are tried at most.
const MOST_EXCHANGES: usize = 64;

/// How many choices are tried at most with one of them.
const MOST_CHOICES: usize = 64;

/// An anchor of a component, and the other symbol that is an anchor in place of it.
#[derive(Clone, Copy)]
pub(crate) struct Exchange {
    /// The anchor.
    pub(crate) anchor: u32,
    /// The other symbol.
    pub(crate) other: u32,
}

/// The exchange with that number, counted from 0; None where there are no more than that.
fn exchange_at(members: &Members, number: usize) -> Option<Exchange>
    ensures { result ≡ slice_get (all_exchanges (partition_of members.now)) number }
{
    let others = members.others.as_slice();
    let mut left = number;
    for anchor in &members.anchors {
        if left < others.len() {
            let exchange = Exchange {
                anchor: *anchor,
                other: others[left],
            };
            return Some(exchange);
        }
        left -= others.len();
    }
    None
}

/// Whether the symbol is an anchor after the exchange.
fn is_exchanged(component: &OpenComponent, exchange: Exchange, symbol: u32) -> bool
    ensures { result ≡ is_exchanged component.now.parts.now component.now.hypotheses.now exchange
        symbol }
{
    if symbol == exchange.other {
        return true;
    }
    let infos = component.parts.symbols.as_slice();
    symbol != exchange.anchor && is_anchor(infos, component.hypotheses, symbol)
}

/// The symbols that are anchors after the exchange.
fn exchanged_anchors(
    alloc: Global,
    component: &OpenComponent,
    exchange: Exchange,
    symbols: &[u32],
) -> Result<Vec<u32>, NoMemory>
    ensures { IfOk result (λ v. v.items ≡
        filter (is_exchanged component.now.parts.now component.now.hypotheses.now exchange)
        symbols.now) }
{
    let mut anchors = Vec::new(alloc);
    for symbol in symbols {
        if is_exchanged(component, exchange, *symbol) {
            anchors.push(*symbol)?;
        }
    }
    Ok(anchors)
}

/// The symbols that are no anchors after it.
fn exchanged_others(
    alloc: Global,
    component: &OpenComponent,
    exchange: Exchange,
    symbols: &[u32],
) -> Result<Vec<u32>, NoMemory>
    ensures { IfOk result (λ v. v.items ≡
        filter (λ f. not (is_exchanged component.now.parts.now component.now.hypotheses.now exchange
        f)) symbols.now) }
{
    let mut others = Vec::new(alloc);
    for symbol in symbols {
        if !is_exchanged(component, exchange, *symbol) {
            others.push(*symbol)?;
        }
    }
    Ok(others)
}

/// The symbols of the component after the exchange.
fn exchanged(
    alloc: Global,
    component: &OpenComponent,
    exchange: Exchange,
) -> Result<Members, NoMemory>
    ensures { IfOk result (λ m. partition_of m ≡
        exchanged component.now.parts.now component.now.hypotheses.now component.now.names.now
        component.now.name exchange) }
{
    let symbols = symbols_in(alloc, component.names, component.name)?;
    let anchors = exchanged_anchors(alloc, component, exchange, symbols.as_slice())?;
    let others = exchanged_others(alloc, component, exchange, symbols.as_slice())?;
    Ok(Members { anchors, others })
}

/// What comes of the exchange.
fn fit_exchanged<S: FnMut(&Constraint) -> Result<Option<Cert>, FmEnd>>(
    alloc: Global,
    component: &OpenComponent,
    exchange: Exchange,
    memo: &mut PairMemo,
    solve: &mut S,
) -> Result<Attempt<Fit>, NoMemory>
    requires solver { IsSolver S.FnMut solve.old }
    ensures solver { IsSolver S.FnMut solve.new }
    ensures tried { IfOk result (λ t. tried_as
        (λ fit. still_open (pairs_at component.now.pairs.now) fit.falls.items) t ≡
        fit_exchanged component.now.kind component.now.parts.now component.now.hypotheses.now
        component.now.names.now component.now.name (pairs_at component.now.pairs.now) exchange) }
    ensures fit { IfOk result (λ t. IfSome t.made
        (IsComponentFit component.now.kind component.now.parts.now component.now.hypotheses.now
        component.now.names.now component.now.name (pairs_at component.now.pairs.now))) }
{
    let members = exchanged(alloc, component, exchange)?;
    let fit = fit_by(alloc, component, &members, MOST_CHOICES, memo, solve)?;
    Ok(fit)
}

/// The first exchange of the component with which a choice is fit, of at most 64; the component's
/// anchors and other symbols are given.
pub(crate) fn first_exchanged<S: FnMut(&Constraint) -> Result<Option<Cert>, FmEnd>>(
    alloc: Global,
    component: &OpenComponent,
    members: &Members,
    memo: &mut PairMemo,
    solve: &mut S,
) -> Result<Attempt<Fit>, NoMemory>
    requires solver { IsSolver S.FnMut solve.old }
    requires members { partition_of members.now ≡
        stated_partition component.now.parts.now component.now.hypotheses.now component.now.names.now
        component.now.name }
    ensures solver { IsSolver S.FnMut solve.new }
    ensures tried { IfOk result (λ t. tried_as
        (λ fit. still_open (pairs_at component.now.pairs.now) fit.falls.items) t ≡
        first_applying (map (fit_exchanged component.now.kind component.now.parts.now
        component.now.hypotheses.now component.now.names.now component.now.name
        (pairs_at component.now.pairs.now))
        (exchanges component.now.parts.now component.now.hypotheses.now component.now.names.now
        component.now.name))) }
    ensures fit { IfOk result (λ t. IfSome t.made
        (IsComponentFit component.now.kind component.now.parts.now component.now.hypotheses.now
        component.now.names.now component.now.name (pairs_at component.now.pairs.now))) }
{
    let mut noted = false;
    for number in 0..MOST_EXCHANGES {
        let exchange = match exchange_at(members, number) {
            Some(exchange) => exchange,
            None => return Ok(Attempt { made: None, noted }),
        };
        let attempt = fit_exchanged(alloc, component, exchange, memo, solve)?;
        noted |= attempt.noted;
        if attempt.made.is_some() {
            return Ok(Attempt {
                made: attempt.made,
                noted,
            });
        }
    }
    Ok(Attempt { made: None, noted })
}
