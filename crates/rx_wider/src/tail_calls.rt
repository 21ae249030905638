//! Tail calls of rules, and the equations that their lemmas say.
ghost use Rattle.std.specs.Prelude.{◌≡◌, IfOk, IsTrue, OnOk};
ghost use Rattle.rx_pairs.specs.Loops.{AreLoopsOf};
ghost use Rattle.rx_term.specs.declared.rule_set.RuleParts.{RuleParts};
ghost use Rattle.rx_term.specs.declared.term.Term.{out-Term};
ghost use Rattle.rx_shapes.specs.Bounds.{is_with};
ghost use Rattle.rx_wider.specs.Tails as spec;

use rx_pairs::Loops;
use rx_plain::{Boxed, Items, NoMemory};
use rx_poly::Poly;
use rx_row::Constraint;
use rx_shapes::variables_from;
use rx_term::{Equation, Rule, RuleSet, Sym, Term};
use std::alloc::Global;

/// A tail call: a frame directly over a call.
#[derive(Drop)]
pub struct TailCall {
    /// The symbol of the frame.
    pub frame: Sym,
    /// The symbol of the call.
    pub call: Sym,
    /// The lemma on it: the frame over the call is equal to the call.
    pub lemma: Equation,
}

/// Variables take this many places at most.
const MOST_PLACES: usize = u32::MAX as usize;

/// The lemma on a frame over a call.
fn tail_lemma(
    alloc: Global,
    frame: Sym,
    xs: &[Poly],
    call: Sym,
    ys: &[Poly],
) -> Result<Equation, NoMemory>
    ensures { IfOk result (λ e. e ≡ spec.tail_lemma frame xs.now call ys.now) }
{
    if xs.len() > MOST_PLACES || ys.len() > MOST_PLACES - xs.len() {
        return Err(NoMemory);
    }
    let first = xs.len() as u32;
    let outer = variables_from(alloc, 0, xs)?;
    let inner = Term::Call(call, variables_from(alloc, first, ys)?);
    Ok(Equation {
        left: Term::Frame(frame, outer, Boxed::new(alloc, inner)?),
        right: Term::Call(call, variables_from(alloc, first, ys)?),
        rows: Constraint::from_rows(Vec::new(alloc)),
    })
}

/// The term as a tail call, if it is one.
fn frame_over_call(alloc: Global, term: &Term) -> Result<Option<TailCall>, NoMemory>
    ensures { IfOk result (λ found. found ≡ spec.frame_over_call (out-Term term.now)) }
{
    let Term::Frame(frame, xs, inner) = term else {
        return Ok(None);
    };
    let Term::Call(call, ys) = inner.get() else {
        return Ok(None);
    };
    Ok(Some(TailCall {
        frame: *frame,
        call: *call,
        lemma: tail_lemma(alloc, *frame, xs.as_slice(), *call, ys.as_slice())?,
    }))
}

/// Whether the call is in the component of the symbol.
fn is_inside(loops: &Loops, root: Option<Sym>, tail: &TailCall) -> bool
    ensures { (parts : RuleParts) → AreLoopsOf parts loops.now →
        result ≡ is_with parts tail.now.call.0 root }
{
    match root {
        Some(root) => loops.in_one_component(root.0, tail.call.0),
        None => false,
    }
}

/// The tail call of a rule within the component of its left root, if it makes one.
fn tail_call_of(alloc: Global, loops: &Loops, rule: &Rule) -> Result<Option<TailCall>, NoMemory>
    ensures { (parts : RuleParts) → AreLoopsOf parts loops.now →
        IfOk result (λ found. found ≡ spec.tail_call_of parts rule.now) }
{
    match frame_over_call(alloc, &rule.right)? {
        Some(tail) if is_inside(loops, rule.left.root(), &tail) => Ok(Some(tail)),
        _ => Ok(None),
    }
}

/// Whether the same frame over the same call is among these.
fn is_among(found: &[TailCall], tail: &TailCall) -> bool
    ensures { result ≡ spec.is_among found.now tail.now }
{
    found.iter().any(|other| tail.frame.0 == other.frame.0 && tail.call.0 == other.call.0)
}

/// One more tail call, unless it stands there.
fn add_call(found: &mut Items<TailCall>, tail: Option<TailCall>) -> Result<(), NoMemory>
    ensures { OnOk result (found.new ≡ spec.with_call found.old tail) }
{
    match tail {
        Some(tail) if !is_among(found.as_slice(), &tail) => Ok(found.push(tail)?),
        _ => Ok(()),
    }
}

/// The tail calls of the rules, each at the first rule that makes it. Fails only where there is no
/// memory.
pub(crate) fn tail_calls(
    alloc: Global,
    rules: &RuleSet,
    loops: &Loops,
) -> Result<Items<TailCall>, NoMemory>
    requires { AreLoopsOf rules.now loops.now }
    ensures { IfOk result (λ found. found ≡ spec.tail_calls rules.now) }
{
    let mut found = Items::new(alloc);
    for rule in rules.rules() {
        add_call(&mut found, tail_call_of(alloc, loops, rule)?)?;
    }
    Ok(found)
}
