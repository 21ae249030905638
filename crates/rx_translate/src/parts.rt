//! The rule set of compiled code.
ghost use Rattle.std.specs.Prelude.{◌≡◌, IfOk, OnOk, [], length, map, replicate};
ghost use Rattle.std.specs.List.{enumerate_from, flat_map};
ghost use Rattle.rx_plain.specs.Formed.{Forms, FormsAs};
ghost use Rattle.rx_code.specs.Rules.{info_at};
ghost use Rattle.rx_translate.specs.Parts.{add_at, info_of, infos_of, parts_formed, sorted_rules};
ghost use Rattle.rx_translate.specs.Rules.{rules_after};

use crate::marks::{marks_of, marks_of_second};
use crate::rules::{number_of_failures, push_rules};
use c_ast::Integers;
use rx_code::{Code, Instruction, Opening};
use rx_plain::Items;
use rx_poly::PolyEnd;
use rx_term::{Rule, RuleParts, SymInfo};
use std::alloc::{AllocError, Global};

/// What a symbol is.
fn info(opening: Opening, entry: bool, head: bool) -> SymInfo
    ensures { result ≡ info_of opening entry head }
{
    SymInfo {
        arity: opening.width,
        frame: opening.frame,
        entry,
        head,
    }
}

/// What each symbol is, by marks of entries and of heads.
fn infos(
    alloc: Global,
    opened: &[Opening],
    entries: &[bool],
    heads: &[bool],
) -> Result<Items<SymInfo>, AllocError>
    requires all_entries { length entries.now ≡ length opened.now }
    requires all_heads { length heads.now ≡ length opened.now }
    ensures { IfOk result (λ infos. infos ≡ infos_of opened.now entries.now heads.now) }
{
    let mut infos = Items::new(alloc);
    for i in 0..opened.len() {
        infos.push(info(opened[i], entries[i], heads[i]))?;
    }
    Ok(infos)
}

/// What each symbol of code is.
fn symbols_of(alloc: Global, code: &Code) -> Result<Items<SymInfo>, AllocError>
    ensures { IfOk result (λ infos.
        infos ≡ map (info_at code.now) (enumerate_from 0 code.now.opened)) }
{
    let opened = code.opened.as_slice();
    let entries = marks_of_second(alloc, opened.len(), code.entries.as_slice())?;
    let heads = marks_of(alloc, opened.len(), code.heads.as_slice())?;
    infos(alloc, opened, entries.as_slice(), heads.as_slice())
}

/// `count` empty lists.
fn empty_lists(alloc: Global, count: usize) -> Result<Vec<Items<Rule>>, AllocError>
    ensures { IfOk result (λ lists. lists.items ≡ replicate count []) }
{
    let mut lists = Vec::new(alloc);
    for _ in 0..count {
        lists.push(Items::new(alloc))?;
    }
    Ok(lists)
}

/// The rules of an instruction. Large exactly where `push_rules` is.
fn rules_of_instruction(
    alloc: Global,
    integers: Integers,
    entries: &[(u32, u32)],
    d: &Instruction,
) -> Result<Items<Rule>, PolyEnd>
    ensures forms { Forms PolyEnd.Large result (rules_after integers entries.now [] d.now) }
{
    let mut rules = Items::new(alloc);
    push_rules(alloc, integers, &mut rules, entries, d)?;
    Ok(rules)
}

/// Adds rules after those of a symbol, where it has a list.
fn add(lists: &mut Vec<Items<Rule>>, symbol: u32, rules: Items<Rule>) -> Result<(), AllocError>
    ensures { OnOk result (lists.new.items ≡ add_at lists.old.items symbol rules) }
{
    if (symbol as usize) < lists.len() {
        lists[symbol as usize].append(rules)?;
    }
    Ok(())
}

/// The rules of code by their symbols. Large exactly where `push_rules` is for something that is
/// done in the code.
fn sorted_rules(alloc: Global, integers: Integers, code: &Code) -> Result<Vec<Items<Rule>>, PolyEnd>
    ensures forms { FormsAs (λ lists. lists.items) PolyEnd.Large result
        (sorted_rules integers code.now) }
{
    let mut lists = empty_lists(alloc, code.opened.len())?;
    for d in code.instructions.as_slice() {
        let rules = rules_of_instruction(alloc, integers, code.entries.as_slice(), d)?;
        add(&mut lists, d.at.symbol, rules)?;
    }
    Ok(lists)
}

/// The rules of the lists, in order.
fn joined(alloc: Global, lists: Vec<Items<Rule>>) -> Result<Items<Rule>, AllocError>
    ensures { IfOk result (λ rules. rules ≡ flat_map (λ rs. rs) lists.items) }
{
    let mut rules = Items::new(alloc);
    for list in lists {
        rules.append(list)?;
    }
    Ok(rules)
}

/// The rule set of code, by the kind of integers: its symbols, the rules symbol by symbol, and how
/// many failures there are. Large exactly where the
/// negation of a row, or the result of a division, passes the limits. The time is linear in the
/// rules, but for the entry of each call.
pub fn parts_of(alloc: Global, integers: Integers, code: &Code) -> Result<RuleParts, PolyEnd>
    ensures forms { Forms PolyEnd.Large result (parts_formed integers code.now) }
{
    let rules = joined(alloc, sorted_rules(alloc, integers, code)?)?;
    Ok(RuleParts {
        symbols: symbols_of(alloc, code)?,
        domains: Items::new(alloc),
        rules,
        fails: number_of_failures(integers),
    })
}
