//! The symbols of a component, its anchors, and which rules are its.
ghost use Rattle.std.specs.Prelude.{◌≡◌, IfOk, map, not};
ghost use Rattle.rx_anchors.specs.Members.{arity_of, is_anchor, is_left_root, is_member};
ghost use Rattle.rx_anchors.specs.Members.{is_rule_of, is_start, members};
ghost use Rattle.std.specs.List.{filter, list_any};

use rx_plain::NoMemory;
use rx_term::{Rule, SymInfo};
use std::alloc::Global;

/// Whether the symbol is of the component with that name.
pub fn is_member(names: &[u32], name: u32, symbol: u32) -> bool
    ensures { result ≡ is_member names.now name symbol }
{
    match names.get(symbol as usize) {
        Some(other) => *other == name,
        None => false,
    }
}

/// Whether the rule's left root is of the component.
pub fn is_rule_of(names: &[u32], name: u32, rule: &Rule) -> bool
    ensures { result ≡ is_rule_of names.now name rule.now }
{
    match rule.left.root() {
        Some(root) => is_member(names, name, root.0),
        None => false,
    }
}

/// How many arguments the symbol has.
pub fn arity_of(infos: &[SymInfo], symbol: u32) -> u32
    ensures { result ≡ arity_of infos.now symbol }
{
    match infos.get(symbol as usize) {
        Some(info) => info.arity,
        None => 0,
    }
}

/// Whether the symbol is the root of the rule's left side.
fn is_left_root(symbol: u32, rule: &Rule) -> bool
    ensures { result ≡ is_left_root symbol rule.now }
{
    match rule.left.root() {
        Some(root) => root.0 == symbol,
        None => false,
    }
}

/// Whether the symbol is the root of the left side of one of the rules.
fn is_some_root(symbol: u32, rules: &[Rule]) -> bool
    ensures { result ≡ list_any (is_left_root symbol) rules.now }
{
    for rule in rules {
        if is_left_root(symbol, rule) {
            return true;
        }
    }
    false
}

/// Whether the symbol is the entry of a function or the head of a loop.
fn is_start(infos: &[SymInfo], symbol: u32) -> bool
    ensures { result ≡ is_start infos.now symbol }
{
    match infos.get(symbol as usize) {
        Some(info) => info.entry || info.head,
        None => false,
    }
}

/// Whether the symbol is the entry of a function, the head of a loop or the left root of a
/// hypothesis.
pub fn is_anchor(infos: &[SymInfo], hypotheses: &[Rule], symbol: u32) -> bool
    ensures { result ≡ is_anchor infos.now hypotheses.now symbol }
{
    is_start(infos, symbol) || is_some_root(symbol, hypotheses)
}

/// The symbols of the component with that name, in order.
pub fn symbols_in(alloc: Global, names: &[u32], name: u32) -> Result<Vec<u32>, NoMemory>
    ensures { IfOk result (λ v. v.items ≡ members names.now name) }
{
    let mut symbols = Vec::new(alloc);
    for (at, other) in names.iter().enumerate() {
        if *other != name {
            continue;
        }
        let symbol = symbol_number(at)?;
        symbols.push(symbol)?;
    }
    Ok(symbols)
}

/// The symbols that are anchors.
fn anchors_among(
    alloc: Global,
    infos: &[SymInfo],
    hypotheses: &[Rule],
    symbols: &[u32],
) -> Result<Vec<u32>, NoMemory>
    ensures { IfOk result (λ v. v.items ≡ filter (is_anchor infos.now hypotheses.now) symbols.now) }
{
    let mut anchors = Vec::new(alloc);
    for symbol in symbols {
        if is_anchor(infos, hypotheses, *symbol) {
            anchors.push(*symbol)?;
        }
    }
    Ok(anchors)
}

/// The symbols that are no anchors.
fn others_among(
    alloc: Global,
    infos: &[SymInfo],
    hypotheses: &[Rule],
    symbols: &[u32],
) -> Result<Vec<u32>, NoMemory>
    ensures { IfOk result (λ v. v.items ≡ filter (λ f. not (is_anchor infos.now hypotheses.now f))
        symbols.now) }
{
    let mut others = Vec::new(alloc);
    for symbol in symbols {
        if !is_anchor(infos, hypotheses, *symbol) {
            others.push(*symbol)?;
        }
    }
    Ok(others)
}

/// The symbols of a component, in order: those that get candidates, and the others.
#[derive(Drop)]
pub struct Members {
    /// The anchors.
    pub anchors: Vec<u32>,
    /// The others.
    pub others: Vec<u32>,
}

/// The symbols of the component with that name.
pub fn members_of(
    alloc: Global,
    infos: &[SymInfo],
    hypotheses: &[Rule],
    names: &[u32],
    name: u32,
) -> Result<Members, NoMemory>
    ensures anchors { IfOk result (λ m. m.anchors.items ≡
        filter (is_anchor infos.now hypotheses.now) (members names.now name)) }
    ensures others { IfOk result (λ m. m.others.items ≡
        filter (λ f. not (is_anchor infos.now hypotheses.now f)) (members names.now name)) }
{
    let symbols = symbols_in(alloc, names, name)?;
    let anchors = anchors_among(alloc, infos, hypotheses, symbols.as_slice())?;
    let others = others_among(alloc, infos, hypotheses, symbols.as_slice())?;
    Ok(Members { anchors, others })
}

/// The number as symbols have it. A set with more symbols than that fits no memory.
fn symbol_number(at: usize) -> Result<u32, NoMemory>
    ensures { IfOk result (λ n. n ≡ at) }
{
    match u32::try_from(at) {
        Ok(number) => Ok(number),
        Err(_) => Err(NoMemory),
    }
}

/// The numbers of the symbols' arguments.
pub fn arities_of(alloc: Global, infos: &[SymInfo], symbols: &[u32]) -> Result<Vec<u32>, NoMemory>
    ensures { IfOk result (λ v. v.items ≡ map (arity_of infos.now) symbols.now) }
{
    let mut arities = Vec::new(alloc);
    for symbol in symbols {
        arities.push(arity_of(infos, *symbol))?;
    }
    Ok(arities)
}
