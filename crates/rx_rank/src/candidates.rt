//! The polynomials that an anchor of a component may get.
ghost use Rattle.std.specs.Prelude.{◌≡◌, ◌∷◌, ◌++◌, [], IfOk, OnOk, map};
ghost use Rattle.std.specs.List.{flat_map, fold, list_any};
ghost use Rattle.rx_poly.specs.contracts.body.BodyPartialEq.TheImpl as body_equal;
ghost use Rattle.rx_anchors.specs.Choices.{lists_in};
ghost use Rattle.rx_rank.specs.Answers.{Gathers};
ghost use Rattle.rx_anchors.specs.Members.{arity_of};
ghost use Rattle.rx_rank.specs.Candidates.{all_candidates, are_noted, candidates_at};
ghost use Rattle.rx_rank.specs.Candidates.{candidates_by, opposite_tried, own_by, own_candidates};
ghost use Rattle.rx_rank.specs.Candidates.{row_candidates, rule_candidates, with_candidate};
ghost use Rattle.rx_solve.specs.Attempts.{applies, is_noted};
ghost use Rattle.rx_term.specs.Domains.{domain_of};

use crate::kind::RankingKind;
use crate::open_component::OpenComponent;
use rx_anchors::{arity_of, is_rule_of};
use rx_plain::NoMemory;
use rx_poly::{Poly, PolyEnd, uses_below};
use rx_row::Row;
use rx_term::{Rule, RuleParts};
use std::alloc::Global;

/// Adds the polynomial, unless it is one of them.
fn push_once(polys: &mut Vec<Poly>, poly: Poly) -> Result<(), NoMemory>
    ensures { OnOk result (polys.new.items ≡ with_candidate polys.old.items poly) }
{
    if is_one_of(polys.as_slice(), &poly) {
        return Ok(());
    }
    polys.push(poly)?;
    Ok(())
}

/// Whether the polynomial is one of them.
fn is_one_of(polys: &[Poly], poly: &Poly) -> bool
    ensures { result ≡ list_any (λ q. (body_equal.ghosts).eq q poly.now) polys.now }
{
    for other in polys {
        if other.is_same(poly) {
            return true;
        }
    }
    false
}

/// Adds the polynomial itself.
fn push_same(polys: &mut Vec<Poly>, alloc: Global, poly: &Poly) -> Result<bool, NoMemory>
    ensures { IfOk result (Gathers (applies poly.now ∷ []) polys.old.items polys.new.items) }
{
    push_once(polys, poly.try_clone(alloc)?)?;
    Ok(false)
}

/// Adds its opposite; true where that passes the limits.
fn push_opposite(polys: &mut Vec<Poly>, alloc: Global, poly: &Poly) -> Result<bool, NoMemory>
    ensures { IfOk result (Gathers (opposite_tried poly.now ∷ []) polys.old.items polys.new.items) }
{
    match poly.scale(alloc, -1) {
        Ok(opposite) => {
            push_once(polys, opposite)?;
            Ok(false)
        }
        Err(PolyEnd::Large) => Ok(true),
        Err(PolyEnd::NoMemory) => Err(NoMemory),
    }
}

/// Adds the candidates by the polynomial and by its opposite; true where one passes the limits.
fn push_both(polys: &mut Vec<Poly>, alloc: Global, poly: &Poly) -> Result<bool, NoMemory>
    ensures { IfOk result (Gathers (applies poly.now ∷ opposite_tried poly.now ∷ []) polys.old.items
        polys.new.items) }
{
    push_same(polys, alloc, poly)?;
    push_opposite(polys, alloc, poly)
}

/// Adds the candidates by the row; true where one passes the limits.
fn push_by(polys: &mut Vec<Poly>, alloc: Global, row: &Row) -> Result<bool, NoMemory>
    ensures { IfOk result (Gathers (candidates_by row.now) polys.old.items polys.new.items) }
{
    match row {
        Row::Ge(poly) => push_same(polys, alloc, poly),
        Row::Eq(poly) => push_both(polys, alloc, poly),
        Row::Ne(poly) => push_both(polys, alloc, poly),
    }
}

/// Adds the candidates by the row, where it is over that many arguments; true where one passes the
/// limits.
fn push_row(polys: &mut Vec<Poly>, alloc: Global, arity: u32, row: &Row) -> Result<bool, NoMemory>
    ensures { IfOk result (Gathers (row_candidates arity row.now) polys.old.items polys.new.items) }
{
    if uses_below(row.poly(), arity) {
        push_by(polys, alloc, row)
    } else {
        Ok(false)
    }
}

/// Those by the rows, in order.
fn push_rows(
    polys: &mut Vec<Poly>,
    alloc: Global,
    arity: u32,
    rows: &[Row],
) -> Result<bool, NoMemory>
    ensures { IfOk result (Gathers (flat_map (row_candidates arity) rows.now) polys.old.items
        polys.new.items) }
{
    let mut noted = false;
    for row in rows {
        let more = push_row(polys, alloc, arity, row)?;
        noted |= more;
    }
    Ok(noted)
}

/// Those by the rules whose left roots are of the component, in order.
fn push_rules(
    polys: &mut Vec<Poly>,
    alloc: Global,
    names: &[u32],
    name: u32,
    arity: u32,
    rules: &[Rule],
) -> Result<bool, NoMemory>
    ensures { IfOk result (Gathers (all_candidates names.now name rules.now arity) polys.old.items
        polys.new.items) }
{
    let mut noted = false;
    for rule in rules {
        let more = push_rule(polys, alloc, names, name, arity, rule)?;
        noted |= more;
    }
    Ok(noted)
}

/// Those by the rule, where its left root is of the component.
fn push_rule(
    polys: &mut Vec<Poly>,
    alloc: Global,
    names: &[u32],
    name: u32,
    arity: u32,
    rule: &Rule,
) -> Result<bool, NoMemory>
    ensures { IfOk result (Gathers (rule_candidates names.now name arity rule.now) polys.old.items
        polys.new.items) }
{
    if is_rule_of(names, name, rule) {
        push_rows(polys, alloc, arity, rule.rows.rows())
    } else {
        Ok(false)
    }
}

/// Candidates, and whether one passes the limits.
#[derive(Drop)]
pub(crate) struct Candidates {
    /// The candidates, each once, in order.
    pub(crate) polys: Vec<Poly>,
    /// Whether one passes the limits.
    pub(crate) noted: bool,
}

/// Adds the polynomial of the row, where it is an inequality over that many arguments.
fn push_own(polys: &mut Vec<Poly>, alloc: Global, arity: u32, row: &Row) -> Result<(), NoMemory>
    ensures { OnOk result (polys.new.items ≡
        fold with_candidate polys.old.items (own_by arity row.now)) }
{
    match row {
        Row::Ge(poly) => {
            if uses_below(poly, arity) {
                push_once(polys, poly.try_clone(alloc)?)
            } else {
                Ok(())
            }
        }
        Row::Eq(_) => Ok(()),
        Row::Ne(_) => Ok(()),
    }
}

/// Adds the polynomials of the inequalities among the rows, in order.
fn push_own_rows(
    polys: &mut Vec<Poly>,
    alloc: Global,
    arity: u32,
    rows: &[Row],
) -> Result<(), NoMemory>
    ensures { OnOk result (polys.new.items ≡
        fold with_candidate polys.old.items (flat_map (own_by arity) rows.now)) }
{
    for row in rows {
        push_own(polys, alloc, arity, row)?;
    }
    Ok(())
}

/// The rows of the symbol's domain, borrowed.
fn domain_rows(parts: &RuleParts, symbol: u32) -> &[Row]
    ensures { result.now ≡ domain_of parts.now symbol }
{
    match parts.domains.as_slice().get(symbol as usize) {
        Some(rows) => rows.rows(),
        None => &[],
    }
}

/// In the wider ranking adds the candidates that come from the symbol's domain.
fn push_domain(
    polys: &mut Vec<Poly>,
    alloc: Global,
    component: &OpenComponent,
    arity: u32,
    symbol: u32,
) -> Result<(), NoMemory>
    ensures { OnOk result (polys.new.items ≡ fold with_candidate polys.old.items
        (own_candidates component.now.kind arity (domain_of component.now.parts.now symbol))) }
{
    match component.kind {
        RankingKind::Plain => Ok(()),
        RankingKind::Wider => {
            let rows = domain_rows(component.parts, symbol);
            push_own_rows(polys, alloc, arity, rows)
        }
    }
}

/// Adds the candidates that come from the rules and then from the hypotheses, for that many
/// arguments; true where one passes the limits.
fn push_stated(
    polys: &mut Vec<Poly>,
    alloc: Global,
    component: &OpenComponent,
    arity: u32,
) -> Result<bool, NoMemory>
    ensures { IfOk result (Gathers (all_candidates component.now.names.now component.now.name
        (component.now.parts.now.rules ++ component.now.hypotheses.now) arity) polys.old.items
        polys.new.items) }
{
    let names = component.names;
    let name = component.name;
    let rules = component.parts.rules.as_slice();
    let first = push_rules(polys, alloc, names, name, arity, rules)?;
    let second = push_rules(polys, alloc, names, name, arity, component.hypotheses)?;
    Ok(first | second)
}

/// The candidates of an anchor of the component: those that come from the rules and the hypotheses,
/// and behind them in the wider ranking those that come from its own domain.
fn anchor_candidates(
    alloc: Global,
    component: &OpenComponent,
    symbol: u32,
) -> Result<Candidates, NoMemory>
    ensures polys { IfOk result (λ c. c.polys.items ≡
        candidates_at component.now.kind component.now.parts.now component.now.hypotheses.now
        component.now.names.now component.now.name symbol) }
    ensures noted { IfOk result (λ c. c.noted ≡
        is_noted (all_candidates component.now.names.now component.now.name
        (component.now.parts.now.rules ++ component.now.hypotheses.now)
        (arity_of component.now.parts.now.symbols symbol))) }
{
    let arity = arity_of(component.parts.symbols.as_slice(), symbol);
    let mut polys = Vec::new(alloc);
    let noted = push_stated(&mut polys, alloc, component, arity)?;
    push_domain(&mut polys, alloc, component, arity, symbol)?;
    Ok(Candidates { polys, noted })
}

/// The candidates of anchors, and whether one passes the limits.
#[derive(Drop)]
pub(crate) struct CandidateLists {
    /// For each anchor its candidates.
    pub(crate) lists: Vec<Vec<Poly>>,
    /// Whether one passes the limits.
    pub(crate) noted: bool,
}

/// The candidates of these anchors of the component.
pub(crate) fn all_lists(
    alloc: Global,
    component: &OpenComponent,
    anchors: &[u32],
) -> Result<CandidateLists, NoMemory>
    ensures lists { IfOk result (λ c. lists_in c.lists.items ≡
        map (candidates_at component.now.kind component.now.parts.now component.now.hypotheses.now
        component.now.names.now component.now.name) anchors.now) }
    ensures noted { IfOk result (λ c. c.noted ≡
        are_noted component.now.names.now component.now.name
        (component.now.parts.now.rules ++ component.now.hypotheses.now)
        (map (arity_of component.now.parts.now.symbols) anchors.now)) }
{
    let mut lists = Vec::new(alloc);
    let mut noted = false;
    for symbol in anchors {
        let one = anchor_candidates(alloc, component, *symbol)?;
        noted |= one.noted;
        lists.push(one.polys)?;
    }
    Ok(CandidateLists { lists, noted })
}
