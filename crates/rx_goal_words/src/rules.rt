//! Rules with their numbers.
ghost use Rattle.std.specs.Prelude.{◌≡◌, ◌++◌, [], decimal, if◌then◌else◌, OnOk};
ghost use Rattle.std.specs.List.{flat_map};
ghost use Rattle.rx_term.specs.Stacks.{root_of};
ghost use Rattle.rx_goal_words.specs.RuleTexts as spec;

use itoa::Buffer;
use rx_inference::have_one_shape;
use rx_plain::NoMemory;
use rx_row::Row;
use rx_term::{Rule, Term};
use rx_term_words::push_term;
use rx_text::{push_row, push_word};

// Which rules are shown.
#[derive(Clone, Copy)]
enum Chosen<'a> {
    // All.
    All,
    // Those whose left side has the shape of this term.
    Shape(&'a Term),
    // Those whose left side has the symbol with this number outermost.
    Root(usize),
}

// Whether the symbol with this number is the term's outermost one.
fn is_root(symbol: usize, term: &Term) -> bool
    ensures { result ≡ spec.is_symbol symbol (root_of term.now) }
{
    match term.root() {
        Some(root) => root.0 as usize == symbol,
        None => false,
    }
}

impl Chosen<'_> {
    // Whether the rule is among them.
    fn chooses(self, rule: &Rule) -> bool
        ensures { result ≡ spec.chooses self.entry rule.now }
    {
        match self {
            Chosen::All => true,
            Chosen::Shape(term) => have_one_shape(&rule.left, term),
            Chosen::Root(symbol) => is_root(symbol, &rule.left),
        }
    }
}

/// Adds the number in decimal digits.
pub(crate) fn push_number(out: &mut Vec<u8>, number: usize) -> Result<(), NoMemory>
    ensures { OnOk result (out.new.items ≡ out.old.items ++ decimal number) }
{
    let mut buffer = Buffer::new();
    push_word(out, buffer.format(number).as_bytes())
}

// Adds rows after others.
fn push_next_rows(out: &mut Vec<u8>, rows: &[Row]) -> Result<(), NoMemory>
    ensures { OnOk result (out.new.items ≡ out.old.items ++ flat_map spec.next_row rows.now) }
{
    for row in rows {
        push_word(out, b", ")?;
        push_row(out, row)?;
    }
    Ok(())
}

/// Adds the rows under which something holds.
pub(crate) fn push_rows(out: &mut Vec<u8>, rows: &[Row]) -> Result<(), NoMemory>
    ensures { OnOk result (out.new.items ≡ out.old.items ++ spec.rows_text rows.now) }
{
    match rows {
        [] => Ok(()),
        [first, rest @ ..] => {
            push_word(out, b" under ")?;
            push_row(out, first)?;
            push_next_rows(out, rest)
        }
    }
}

// Adds both sides of a rule.
fn push_sides(out: &mut Vec<u8>, rule: &Rule) -> Result<(), NoMemory>
    ensures { OnOk result (out.new.items ≡ out.old.items ++ spec.sides_text rule.now) }
{
    push_term(&rule.left, out)?;
    push_word(out, b" -> ")?;
    push_term(&rule.right, out)
}

// Adds a rule with its number.
fn push_rule(out: &mut Vec<u8>, number: usize, rule: &Rule) -> Result<(), NoMemory>
    ensures { OnOk result (out.new.items ≡ out.old.items ++ spec.rule_text number rule.now) }
{
    push_word(out, b"    ")?;
    push_number(out, number)?;
    push_word(out, b" ")?;
    push_sides(out, rule)?;
    push_rows(out, rule.rows.rows())?;
    push_word(out, b"\n")
}

// Adds the rule with its number, if it is chosen.
fn push_if(
    out: &mut Vec<u8>,
    chosen: Chosen<'_>,
    number: usize,
    rule: &Rule,
) -> Result<(), NoMemory>
    ensures { OnOk result (out.new.items ≡ out.old.items ++
        (if spec.chooses chosen.entry rule.now then spec.rule_text number rule.now else [])) }
{
    if chosen.chooses(rule) {
        push_rule(out, number, rule)
    } else {
        Ok(())
    }
}

// Adds those of the rules that are chosen, with their numbers, a line each.
fn push_rules(out: &mut Vec<u8>, chosen: Chosen<'_>, rules: &[Rule]) -> Result<(), NoMemory>
    ensures { OnOk result (out.new.items
        ≡ out.old.items ++ spec.rules_text (spec.chooses chosen.entry) 0 rules.now) }
{
    for (number, rule) in rules.iter().enumerate() {
        push_if(out, chosen, number, rule)?;
    }
    Ok(())
}

/// Adds the rules whose left side has the shape of the term, with their own numbers, a line each.
pub(crate) fn push_rules_at(out: &mut Vec<u8>, term: &Term, rules: &[Rule]) -> Result<(), NoMemory>
    ensures { OnOk result (out.new.items
        ≡ out.old.items ++ spec.rules_text (spec.is_of_shape term.now) 0 rules.now) }
{
    push_rules(out, Chosen::Shape(term), rules)
}

/// Adds the rules, with their numbers, a line each.
pub(crate) fn push_all_rules(out: &mut Vec<u8>, rules: &[Rule]) -> Result<(), NoMemory>
    ensures { OnOk result (out.new.items
        ≡ out.old.items ++ spec.rules_text spec.any_rule 0 rules.now) }
{
    push_rules(out, Chosen::All, rules)
}

/// Adds the rules of the symbol with this number, with their own numbers, a line each.
pub fn push_rules_of(out: &mut Vec<u8>, symbol: usize, rules: &[Rule]) -> Result<(), NoMemory>
    ensures { OnOk result (out.new.items
        ≡ out.old.items ++ spec.rules_text (spec.is_of_symbol symbol) 0 rules.now) }
{
    push_rules(out, Chosen::Root(symbol), rules)
}
