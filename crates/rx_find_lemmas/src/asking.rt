//! A question to a closure that finds lemmas.
ghost use Rattle.rx_find_lemmas.specs.Finders.{FindsLemmas, IsLemmaFinder};
ghost use Rattle.rx_solve.specs.Answers.{IsSolver};

use crate::lemma::Lemma;
use rx_cert::Cert;
use rx_fm::FmEnd;
use rx_plain::Items;
use rx_row::Constraint;
use rx_term::{Equation, RuleSet};

/// The lemmas of the goal that the closure finds, each with the certificates of its step. The
/// closure may ask the solver.
pub fn ask_lemmas<
    S: FnMut(&Constraint) -> Result<Option<Cert>, FmEnd>,
    L: FnMut(&Equation, &RuleSet, &mut S) -> Result<Items<Lemma>, FmEnd>,
>(goal: &Equation, rules: &RuleSet, solve: &mut S, lemma: &mut L) -> Result<Items<Lemma>, FmEnd>
    requires solver { IsSolver S.FnMut solve.old }
    requires lemma { IsLemmaFinder S.FnMut L.FnMut lemma.old }
    ensures solver { IsSolver S.FnMut solve.new }
    ensures lemma { IsLemmaFinder S.FnMut L.FnMut lemma.new }
    ensures answer { FindsLemmas rules.now goal.now result }
{
    lemma(goal, rules, solve)
}
