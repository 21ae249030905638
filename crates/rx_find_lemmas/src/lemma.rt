//! Lemmas, and how one is read from the step that takes it.
ghost use Rattle.std.specs.Prelude.{◌≡◌, ◌++◌, ◌||◌, [], OnOk, false};
ghost use Rattle.rx_find_lemmas.specs.Lemmas.{step_to, with_trial};
ghost use Rattle.rx_find_lemmas.specs.Lemmas as spec;

use rx_cert::Cert;
use rx_inference::Step;
use rx_lemma::LemmaKind;
use rx_plain::{Items, NoMemory};
use rx_poly::Poly;
use rx_settle::Trial;
use rx_term::Equation;
use std::alloc::Global;

/// An equation of which a goal is an instance, with what shows that.
#[derive(Drop)]
pub struct Lemma {
    /// How it is made of the goal.
    pub kind: LemmaKind,
    /// The equation.
    pub goal: Equation,
    /// What makes it into the goal, rising by the numbers of the variables.
    pub subst: Items<(u32, Poly)>,
    /// The certificates of the step from the goal to the equation.
    pub certs: Items<Cert>,
}

/// Lemmas so far.
#[derive(Drop)]
pub(crate) struct Found {
    /// In order.
    pub(crate) lemmas: Items<Lemma>,
    /// Whether something on the way passed the limits.
    pub(crate) noted: bool,
}

/// The answer, once the value is let go of.
pub(crate) fn dropped<T: Drop, A>(value: T, answer: A) -> A
    ensures { result ≡ answer }
{
    drop(value);
    answer
}

/// The lemma that a step takes, if it is one of kind Generalise.
fn lemma_of(kind: LemmaKind, step: Step) -> Option<Lemma>
    ensures { result ≡ spec.lemma_of kind step }
{
    match step {
        Step::Generalise {
            left,
            right,
            rows,
            subst,
            certs,
        } => Some(Lemma {
            kind,
            goal: Equation { left, right, rows },
            subst,
            certs,
        }),
        other => dropped(other, None),
    }
}

/// The lemma that is taken, if one is.
fn lemma_taken(kind: LemmaKind, taken: Option<Step>) -> Option<Lemma>
    ensures { result ≡ spec.lemma_taken kind taken }
{
    match taken {
        Some(step) => lemma_of(kind, step),
        None => None,
    }
}

impl Found {
    /// None yet.
    pub(crate) fn new(alloc: Global) -> Found
        ensures { result ≡ record { lemmas = []; noted = false } }
    {
        Found {
            lemmas: Items::new(alloc),
            noted: false,
        }
    }

    /// One more, where the step to it was taken.
    pub(crate) fn add(&mut self, kind: LemmaKind, trial: Trial) -> Result<(), NoMemory>
        ensures { OnOk result (self.new ≡ with_trial self.old kind trial) }
    {
        let Trial { taken, noted } = trial;
        self.noted = self.noted || noted;
        match lemma_taken(kind, taken) {
            Some(lemma) => Ok(self.lemmas.push(lemma)?),
            None => Ok(()),
        }
    }
}
