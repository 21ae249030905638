//! The choices at a goal that are no lemmas, before they are tried.
ghost use Rattle.std.specs.Prelude.{◌≡◌, IfOk};
ghost use Rattle.rx_inference.specs.declared.step.Step.TheVariants as steps;
ghost use Rattle.rx_search.specs.Candidates.{expansions, number_of};

use rx_inference::{Side, Step};
use rx_lemma::LemmaKind;
use rx_plain::{Items, NoMemory};
use std::alloc::Global;

/// A choice at a goal, before it is tried.
#[derive(Drop)]
pub struct Candidate {
    /// Its number.
    pub number: u8,
    /// Whether ranks are to be found with the hypothesis that it keeps.
    pub keeps: bool,
    /// Its step, without certificates.
    pub step: Step,
}

/// A choice by Expand.
fn expanding(number: u8, side: Side, keep: bool) -> Candidate
    ensures { result ≡ record { number = number; keeps = keep; step = steps.Expand side keep } }
{
    Candidate {
        number,
        keeps: keep,
        step: Step::Expand { side, keep },
    }
}

/// Expand of each side that keeps the goal, and then that doesn't; and Decompose.
pub(crate) fn expansions(alloc: Global) -> Result<Items<Candidate>, NoMemory>
    ensures { IfOk result (λ made. made ≡ expansions) }
{
    let decomposing = Candidate {
        number: 5,
        keeps: false,
        step: Step::Decompose {
            certs: Items::new(alloc),
        },
    };
    Ok(Items::from_vec(vec![in alloc;
        expanding(1, Side::Left, true),
        expanding(2, Side::Right, true),
        expanding(3, Side::Left, false),
        expanding(4, Side::Right, false),
        decomposing,
    ]?))
}

/// The number of a choice by a lemma; what names constants is never a choice.
pub(crate) fn number_of(kind: LemmaKind) -> u8
    ensures { result ≡ number_of kind }
{
    match kind {
        LemmaKind::NameConstants => 0,
        LemmaKind::DropValues => 6,
        LemmaKind::ReplaceRepeated => 7,
    }
}
