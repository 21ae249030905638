//! Rule sets: the symbols with their domains, the rules and the greatest failure code.
ghost use Rattle.std.specs.Prelude.{◌≡◌, ◌↔◌, true, IsTrue, IfOk, IfSome, IsSome};
ghost use Rattle.rx_term.specs.Domains.{are_domains, domain_of};
ghost use Rattle.rx_term.specs.Fitting.{term_fits, is_declared};
ghost use Rattle.rx_term.specs.MadeTest.{is_made, is_well_made};
ghost use Rattle.rx_term.specs.WellMade.{IsWellMade};

use crate::left_side::left_width;
use crate::rule::Rule;
use crate::term::{Sym, Term};
use rx_plain::Items;
use rx_row::{Constraint, Row, rows_use_below};
use std::alloc::{AllocError, Global};
use std::marker::Model;

/// What a symbol is: a point, which is called, or a frame.
#[derive(Clone, Copy, Debug, PartialEq, Eq)]
pub struct SymInfo {
    /// The number of its arguments; for a frame, without what it is over.
    pub arity: u32,
    /// Whether it is a frame.
    pub frame: bool,
    /// Whether it is the entry of a function.
    pub entry: bool,
    /// Whether it is the head of a loop.
    pub head: bool,
}

impl SymInfo {
    /// Whether the two are the same.
    fn is_same(&self, other: &SymInfo) -> bool
        ensures { IsTrue result ↔ (self.now ≡ other.now) }
    {
        self.arity == other.arity
            && self.frame == other.frame
            && self.entry == other.entry
            && self.head == other.head
    }
}

/// Symbols and rules, not yet known to fit one another.
#[derive(Drop)]
pub struct RuleParts {
    /// The symbols by their numbers.
    pub symbols: Items<SymInfo>,
    /// The domain of each symbol by its number: rows over its arguments v0, v1, and so on. A symbol
    /// after the last list has no rows.
    pub domains: Items<Constraint>,
    /// The rules by their numbers.
    pub rules: Items<Rule>,
    /// The greatest failure code; the codes are counted from 1.
    pub fails: u8,
}

impl RuleParts {
    /// Whether the symbol is declared as a frame, or as a point, with n arguments. Takes no memory.
    fn declares(&self, sym: Sym, frame: bool, count: usize) -> bool
        ensures { result ≡ is_declared self.now.symbols sym frame count }
    {
        match self.symbols.as_slice().get(sym.0 as usize) {
            Some(info) => info.frame == frame && info.arity as usize == count,
            None => false,
        }
    }

    /// Whether the term's symbols, their numbers of arguments, its frames and its failure code are
    /// those declared here. Takes no memory.
    pub fn fits(&self, term: &Term) -> bool
        ensures { result ≡ term_fits self.now term.now }
    {
        let mut here = term;
        loop {
            match here {
                Term::Return(_) => return true,
                Term::Fail(code) => return 1 <= *code && *code <= self.fails,
                Term::Call(sym, args) => return self.declares(*sym, false, args.len()),
                Term::Frame(sym, args, inner) => {
                    if !self.declares(*sym, true, args.len()) {
                        return false;
                    }
                    here = inner.get();
                }
            }
        }
    }

    /// Whether the rule is well made: on its left side stand the variables 0, 1, .. in order, each
    /// alone, its terms fit these symbols, and nothing in it has another variable. Takes no memory.
    pub fn is_made(&self, rule: &Rule) -> bool
        ensures { result ≡ is_made self.now rule.now }
    {
        match left_width(&rule.left) {
            Some(count) => {
                self.fits(&rule.left)
                    && self.fits(&rule.right)
                    && rule.right.uses_below(count)
                    && rows_use_below(rule.rows.rows(), count)
            }
            None => false,
        }
    }

    /// Whether each rule is well made.
    fn is_well_made(&self) -> bool
        ensures { result ≡ is_well_made self.now }
    {
        for rule in self.rules.as_slice() {
            if !self.is_made(rule) {
                return false;
            }
        }
        true
    }

    /// Whether each list of the domains is over the arguments of its symbol, and there are no more
    /// lists than symbols.
    fn has_domains(&self) -> bool
        ensures { result ≡ are_domains self.now.symbols self.now.domains }
    {
        let mut infos = self.symbols.as_slice();
        for rows in self.domains.as_slice() {
            let Some((info, more)) = infos.split_first() else {
                return false;
            };
            if !rows_use_below(rows.rows(), info.arity) {
                return false;
            }
            infos = more;
        }
        true
    }

    /// Whether the two have the same symbols, domains, rules and greatest code. Takes no memory.
    pub fn is_same(&self, other: &RuleParts) -> bool
        ensures { IsTrue result ↔ (self.now ≡ other.now) }
    {
        self.fails == other.fails
            && are_same_symbols(self.symbols.as_slice(), other.symbols.as_slice())
            && are_same_rules(self.rules.as_slice(), other.rules.as_slice())
            && are_same_domains(self.domains.as_slice(), other.domains.as_slice())
    }

    /// The same parts once more; fails only when out of memory.
    pub fn try_clone(&self, alloc: Global) -> Result<RuleParts, AllocError>
        ensures { IfOk result (λ p. p ≡ self.now) }
    {
        let symbols = Items::from_slice(alloc, self.symbols.as_slice())?;
        let domains = copied_domains(alloc, self.domains.as_slice())?;
        let rules = copied_rules(alloc, self.rules.as_slice())?;
        Ok(RuleParts {
            symbols,
            domains,
            rules,
            fails: self.fails,
        })
    }
}

/// Whether the two lists have the same symbols.
fn are_same_symbols(left: &[SymInfo], right: &[SymInfo]) -> bool
    ensures { IsTrue result ↔ (left.now ≡ right.now) }
{
    let mut rest = left;
    let mut others = right;
    while let (Some((one, more)), Some((other, further))) = (
        rest.split_first(),
        others.split_first(),
    ) {
        if !one.is_same(other) {
            return false;
        }
        rest = more;
        others = further;
    }
    rest.is_empty() && others.is_empty()
}

/// Whether the two lists have the same rules.
fn are_same_rules(left: &[Rule], right: &[Rule]) -> bool
    ensures { IsTrue result ↔ (left.now ≡ right.now) }
{
    let mut rest = left;
    let mut others = right;
    while let (Some((one, more)), Some((other, further))) = (
        rest.split_first(),
        others.split_first(),
    ) {
        if !one.is_same(other) {
            return false;
        }
        rest = more;
        others = further;
    }
    rest.is_empty() && others.is_empty()
}

/// Whether the two lists have the same domains.
fn are_same_domains(left: &[Constraint], right: &[Constraint]) -> bool
    ensures { IsTrue result ↔ (left.now ≡ right.now) }
{
    let mut rest = left;
    let mut others = right;
    while let (Some((one, more)), Some((other, further))) = (
        rest.split_first(),
        others.split_first(),
    ) {
        if !one.is_same(other) {
            return false;
        }
        rest = more;
        others = further;
    }
    rest.is_empty() && others.is_empty()
}

/// The same rules once more.
fn copied_rules(alloc: Global, rules: &[Rule]) -> Result<Items<Rule>, AllocError>
    ensures { IfOk result (λ made. made ≡ rules.now) }
{
    let mut made = Items::new(alloc);
    for rule in rules {
        made.push(rule.try_clone(alloc)?)?;
    }
    Ok(made)
}

/// The same domains once more.
fn copied_domains(alloc: Global, domains: &[Constraint]) -> Result<Items<Constraint>, AllocError>
    ensures { IfOk result (λ made. made ≡ domains.now) }
{
    let mut made = Items::new(alloc);
    for rows in domains {
        made.push(rows.try_clone(alloc)?)?;
    }
    Ok(made)
}

/// A set of rules that is well made: each left side is a point over v0, v1, .. or a frame over
/// these and over the next variable or a failure code, all terms fit the symbols, and right sides
/// and rows use only variables of their left side. Each symbol has a domain, rows over its
/// arguments alone.
#[derive(Drop)]
pub struct RuleSet {
    parts: RuleParts,
}

impl Model for RuleSet {
    ghost use Rattle.std.specs.Prelude.{◌≡◌, true};
    ghost use Rattle.std.specs.Coded.{codes};
    ghost use Rattle.rx_term.specs.contracts.rule_set.RuleParts as parts_row;
    ghost use Rattle.rx_term.specs.declared.rule_set.RuleParts.{RuleParts};

    ghost Value = { RuleParts };

    ghost coded = { Prim.hlevel (codes, parts_row.the_row.coded) };

    ghost use Rattle.std.specs.Prelude.{◌&&◌};
    ghost use Rattle.rx_term.specs.Domains.{are_domains};
    ghost use Rattle.rx_term.specs.MadeTest.{is_well_made};

    ghost view = { λ s. s.parts };

    ghost invariant = { λ s.
        (is_well_made s.parts && are_domains s.parts.symbols s.parts.domains) ≡ true };

    ghost inverse = { λ p. record { parts = p } };
}

impl RuleSet {
    /// The rule set of these parts; None exactly where they are not well made, or a domain uses
    /// another variable than its symbol's arguments, or there are more domains than symbols. Takes
    /// no memory.
    #[tactic(auto, using(crate::proofs::MadeLaws::test_of_well_made))]
    pub fn from_parts(parts: RuleParts) -> Option<RuleSet>
        ensures same { IfSome result (λ s. s ≡ parts) }
        ensures exact { IsSome result ↔
            (IsWellMade parts × (are_domains parts.symbols parts.domains ≡ true)) }
    {
        if parts.is_well_made() && parts.has_domains() {
            Some(RuleSet { parts })
        } else {
            None
        }
    }

    /// The parts, borrowed.
    pub fn parts(&self) -> &RuleParts
        ensures parts { result.now ≡ self.now }
        ensures made { IsWellMade self.now }
        ensures domains { are_domains self.now.symbols self.now.domains ≡ true }
    {
        &self.parts
    }

    /// The symbols by their numbers, borrowed.
    pub fn symbols(&self) -> &[SymInfo]
        ensures { result.now ≡ self.now.symbols }
    {
        self.parts.symbols.as_slice()
    }

    /// The rules by their numbers, borrowed.
    pub fn rules(&self) -> &[Rule]
        ensures { result.now ≡ self.now.rules }
    {
        self.parts.rules.as_slice()
    }

    /// The domain of a symbol, borrowed: rows over its arguments v0, v1, and so on, all of which
    /// are to hold. Empty where it has none.
    pub fn domain(&self, sym: Sym) -> &[Row]
        ensures { result.now ≡ domain_of self.now sym.0 }
    {
        match self.parts.domains.as_slice().get(sym.0 as usize) {
            Some(rows) => rows.rows(),
            None => &[],
        }
    }

    /// The greatest failure code.
    pub fn fails(&self) -> u8
        ensures { result ≡ self.now.fails }
    {
        self.parts.fails
    }

    /// Whether the term's symbols, their numbers of arguments, its frames and its failure code are
    /// those of this set. Takes no memory.
    pub fn fits(&self, term: &Term) -> bool
        ensures { result ≡ term_fits self.now term.now }
    {
        self.parts.fits(term)
    }

    /// Whether the two are one rule set. Takes no memory.
    pub fn is_same(&self, other: &RuleSet) -> bool
        ensures { IsTrue result ↔ (self.now ≡ other.now) }
    {
        self.parts.is_same(&other.parts)
    }

    /// The same rule set once more; fails only when out of memory.
    pub fn try_clone(&self, alloc: Global) -> Result<RuleSet, AllocError>
        ensures { IfOk result (λ s. s ≡ self.now) }
    {
        let parts = self.parts.try_clone(alloc)?;
        Ok(RuleSet { parts })
    }
}
