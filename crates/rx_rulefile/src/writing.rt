//! Rule texts, written.
ghost use Rattle.std.specs.Prelude.{◌≡◌, ◌++◌, ◌∷◌, [], true, map, IfOk, OnOk};
ghost use Rattle.std.specs.List.{list_all};
ghost use Rattle.rx_lines.specs.Texts.{ended};
ghost use Rattle.rx_rulefile.specs.RuleLines.{kind_text, lines};
ghost use Rattle.rx_rulefile.specs.RuleTexts.{IsRuleText, numbered, rule_lines};
ghost use Rattle.rx_rulefile.specs.declared.rule_line.RuleLine.TheVariants as line;

use rx_plain::{Items, NoMemory};
use rx_term::{Equation, Rule, RuleSet, SymInfo};
use rx_term_words::push_equation;
use rx_text::{push_natural, push_word};
use rx_words::push_count;
use std::alloc::Global;

/// What the symbol is, as a word.
fn push_kind(info: &SymInfo, out: &mut Vec<u8>) -> Result<(), NoMemory>
    ensures { OnOk result (out.new.items ≡ out.old.items ++
        kind_text info.now.frame info.now.entry info.now.head) }
{
    if info.frame {
        return push_word(out, b"frame");
    }
    match (info.entry, info.head) {
        (true, true) => push_word(out, b"both"),
        (true, false) => push_word(out, b"entry"),
        (false, true) => push_word(out, b"head"),
        (false, false) => push_word(out, b"point"),
    }
}

/// The line of a symbol, ended.
fn push_symbol(number: usize, info: &SymInfo, out: &mut Vec<u8>) -> Result<(), NoMemory>
    ensures { OnOk result (out.new.items ≡ out.old.items ++
        ended (lines.text (line.Symbol number info.now) ∷ [])) }
{
    push_word(out, b"symbol s")?;
    push_count(out, number)?;
    push_word(out, b" ")?;
    push_natural(out, info.arity)?;
    push_word(out, b" ")?;
    push_kind(info, out)?;
    push_word(out, b"\n")
}

/// The lines of the symbols, ended.
fn push_symbols(symbols: &[SymInfo], out: &mut Vec<u8>) -> Result<(), NoMemory>
    ensures { OnOk result (out.new.items ≡ out.old.items ++
        ended (map lines.text (numbered 0 symbols.now))) }
{
    for (number, info) in symbols.iter().enumerate() {
        push_symbol(number, info, out)?;
    }
    Ok(())
}

/// The line of a rule, ended.
fn push_rule(rule: &Rule, out: &mut Vec<u8>) -> Result<(), NoMemory>
    ensures { OnOk result (out.new.items ≡ out.old.items ++
        ended (lines.text (line.Rule rule.now) ∷ [])) }
{
    push_word(out, b"rule ")?;
    push_equation(&rule.left, &rule.right, rule.rows.rows(), out)?;
    push_word(out, b"\n")
}

/// The lines of the rules, ended.
fn push_rules(rules: &[Rule], out: &mut Vec<u8>) -> Result<(), NoMemory>
    ensures { OnOk result (out.new.items ≡ out.old.items ++
        ended (map lines.text (map line.Rule rules.now))) }
{
    for rule in rules {
        push_rule(rule, out)?;
    }
    Ok(())
}

/// The first two lines, ended.
fn push_head(fails: u8, out: &mut Vec<u8>) -> Result<(), NoMemory>
    ensures { OnOk result (out.new.items ≡ out.old.items ++
        ended (map lines.text (line.Header ∷ line.Fails fails ∷ []))) }
{
    push_word(out, b"ctrl-rules 1\nfails ")?;
    push_natural(out, fails as u32)?;
    push_word(out, b"\n")
}

/// The last two lines, ended.
fn push_goal(goal: &Equation, out: &mut Vec<u8>) -> Result<(), NoMemory>
    ensures { OnOk result (out.new.items ≡ out.old.items ++
        ended (map lines.text (line.Equation goal.now ∷ line.End ∷ []))) }
{
    push_word(out, b"equation ")?;
    push_equation(&goal.left, &goal.right, goal.rows.rows(), out)?;
    push_word(out, b"\nEND\n")
}

/// The text of the rule set and the equation: the one that is read again as these, where the
/// equation fits the symbols. All in them must have a text: no symbol has a domain; at most 4,096
/// symbols, each with at most 128 arguments, and no frame the entry of a function or the head of a
/// loop; variables below 1,000,000; and fewer than 2^32 rows in a rule or in the equation. Fails
/// only when out of memory.
pub fn write_rules(alloc: Global, rules: &RuleSet, goal: &Equation) -> Result<Items<u8>, NoMemory>
    requires in_range { list_all lines.in_range (rule_lines rules.now goal.now) ≡ true }
    requires no_domains { rules.now.domains ≡ [] }
    ensures { IfOk result (λ text. IsRuleText text rules.now goal.now) }
{
    let mut out = Vec::new(alloc);
    push_head(rules.fails(), &mut out)?;
    push_symbols(rules.symbols(), &mut out)?;
    push_rules(rules.rules(), &mut out)?;
    push_goal(goal, &mut out)?;
    Ok(Items::from_vec(out))
}
