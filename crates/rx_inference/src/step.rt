//! The ten kinds of steps.
ghost use Rattle.std.specs.Prelude.{◌≡◌, IfOk};
ghost use Rattle.rx_inference.specs.Judging.{certificates};
ghost use Rattle.rx_inference.specs.declared.step.Step.TheVariants as steps;

use rx_cert::{Cert, copied_certs};
use rx_plain::{Items, NoMemory};
use rx_poly::Poly;
use rx_row::{Constraint, Row};
use rx_term::Term;
use std::alloc::Global;

/// A side of the first goal.
#[derive(Clone, Copy, Debug, PartialEq, Eq)]
pub enum Side {
    /// The left side.
    Left,
    /// The right side.
    Right,
}

/// Why the first goal need not be shown.
#[derive(Drop)]
pub enum Delete {
    /// No integers meet its rows: they are refuted by the certificate.
    Absurd(Cert),
    /// Under its rows both sides are equal, polynomial by polynomial.
    Equal(Items<Cert>),
}

/// A step on the first goal of a proof state. Certificates are listed for the rows that are asked
/// and aren't plain, in their order.
#[derive(Drop)]
pub enum Step {
    /// A rule replaces the redex of a side.
    Simplify {
        /// The side.
        side: Side,
        /// The number of the rule.
        rule: u32,
        /// For the rule's rows.
        certs: Items<Cert>,
    },
    /// A hypothesis, with polynomials in place of its variables, replaces a part of a side.
    Hyp {
        /// The side.
        side: Side,
        /// How many frames are over that part.
        place: u32,
        /// The number of the hypothesis.
        hyp: u32,
        /// What its variables are replaced by, rising by their numbers.
        subst: Items<(u32, Poly)>,
        /// For the equal polynomials of the part and of the left side, and then for the
        /// hypothesis's rows.
        certs: Items<Cert>,
    },
    /// Each rule of the shape of a side's redex replaces it, in a goal of its own.
    Expand {
        /// The side.
        side: Side,
        /// Whether the goal is a hypothesis from then on, from this side to the other.
        keep: bool,
    },
    /// The goal is left out.
    Delete(Delete),
    /// Both sides have one shape: a goal remains for each pair of polynomials, in which they
    /// differ.
    EqDelete,
    /// The goal is an instance of a new one, which takes its place.
    Generalise {
        /// The new left side.
        left: Term,
        /// The new right side.
        right: Term,
        /// The new rows.
        rows: Constraint,
        /// What makes the new goal into the old one, rising by the numbers of the variables.
        subst: Items<(u32, Poly)>,
        /// For the equal polynomials of the left sides, of the right sides, and for the new rows.
        certs: Items<Cert>,
    },
    /// A new goal comes before the old one.
    Postulate {
        /// Its left side.
        left: Term,
        /// Its right side.
        right: Term,
        /// Its rows.
        rows: Constraint,
        /// Its certificates: there are none, since nothing is asked.
        certs: Items<Cert>,
    },
    /// A row holds, in one goal, or its negation does, in the other.
    Split {
        /// The row.
        row: Row,
    },
    /// Both sides are frames of one symbol with equal polynomials: what they are over is to be
    /// equal.
    Decompose {
        /// For the equal polynomials of the two frames.
        certs: Items<Cert>,
    },
    /// Parts of both sides that are equal are replaced by each result that they may have.
    Results {
        /// How many frames are over the part of the left side.
        left: u32,
        /// How many are over that of the right side.
        right: u32,
        /// For the equal polynomials of the two parts.
        certs: Items<Cert>,
    },
}

/// The same substitution once more.
fn copied_subst(alloc: Global, subst: &[(u32, Poly)]) -> Result<Items<(u32, Poly)>, NoMemory>
    ensures { IfOk result (λ made. made ≡ subst.now) }
{
    let mut made = Items::new(alloc);
    for (var, poly) in subst {
        made.push((*var, poly.try_clone(alloc)?))?;
    }
    Ok(made)
}

/// The same postulate once more.
fn copied_postulate(
    alloc: Global,
    left: &Term,
    right: &Term,
    rows: &Constraint,
    certs: &[Cert],
) -> Result<Step, NoMemory>
    ensures { IfOk result (λ step. step ≡ steps.Postulate left.now right.now rows.now certs.now) }
{
    Ok(Step::Postulate {
        left: left.try_clone(alloc)?,
        right: right.try_clone(alloc)?,
        rows: rows.try_clone(alloc)?,
        certs: copied_certs(alloc, certs)?,
    })
}

/// The same generalisation once more.
fn copied_generalisation(
    alloc: Global,
    left: &Term,
    right: &Term,
    rows: &Constraint,
    subst: &[(u32, Poly)],
    certs: &[Cert],
) -> Result<Step, NoMemory>
    ensures { IfOk result (λ step.
        step ≡ steps.Generalise left.now right.now rows.now subst.now certs.now) }
{
    Ok(Step::Generalise {
        left: left.try_clone(alloc)?,
        right: right.try_clone(alloc)?,
        rows: rows.try_clone(alloc)?,
        subst: copied_subst(alloc, subst)?,
        certs: copied_certs(alloc, certs)?,
    })
}

impl Delete {
    /// The same once more; fails only when out of memory.
    pub fn try_clone(&self, alloc: Global) -> Result<Delete, NoMemory>
        ensures { IfOk result (λ by. by ≡ self.now) }
    {
        match self {
            Delete::Absurd(cert) => Ok(Delete::Absurd(cert.try_clone(alloc)?)),
            Delete::Equal(certs) => Ok(Delete::Equal(copied_certs(alloc, certs.as_slice())?)),
        }
    }
}

impl Step {
    /// Its certificates, in order. Takes no memory.
    pub fn certificates(&self) -> &[Cert]
        ensures { result.now ≡ certificates self.now }
    {
        match self {
            Step::Simplify { certs, .. } => certs.as_slice(),
            Step::Hyp { certs, .. } => certs.as_slice(),
            Step::Delete(Delete::Absurd(cert)) => std::slice::from_ref(cert),
            Step::Delete(Delete::Equal(certs)) => certs.as_slice(),
            Step::Generalise { certs, .. } => certs.as_slice(),
            Step::Postulate { certs, .. } => certs.as_slice(),
            Step::Decompose { certs } => certs.as_slice(),
            Step::Results { certs, .. } => certs.as_slice(),
            _ => &[],
        }
    }
    /// The same step once more; fails only when out of memory.
    pub fn try_clone(&self, alloc: Global) -> Result<Step, NoMemory>
        ensures { IfOk result (λ step. step ≡ self.now) }
    {
        match self {
            Step::Simplify { side, rule, certs } => Ok(Step::Simplify {
                side: *side,
                rule: *rule,
                certs: copied_certs(alloc, certs.as_slice())?,
            }),
            Step::Hyp {
                side,
                place,
                hyp,
                subst,
                certs,
            } => Ok(Step::Hyp {
                side: *side,
                place: *place,
                hyp: *hyp,
                subst: copied_subst(alloc, subst.as_slice())?,
                certs: copied_certs(alloc, certs.as_slice())?,
            }),
            Step::Expand { side, keep } => Ok(Step::Expand {
                side: *side,
                keep: *keep,
            }),
            Step::Delete(by) => Ok(Step::Delete(by.try_clone(alloc)?)),
            Step::EqDelete => Ok(Step::EqDelete),
            Step::Generalise {
                left,
                right,
                rows,
                subst,
                certs,
            } => copied_generalisation(
                alloc,
                left,
                right,
                rows,
                subst.as_slice(),
                certs.as_slice(),
            ),
            Step::Postulate {
                left,
                right,
                rows,
                certs,
            } => copied_postulate(alloc, left, right, rows, certs.as_slice()),
            Step::Split { row } => Ok(Step::Split {
                row: row.try_clone(alloc)?,
            }),
            Step::Decompose { certs } => Ok(Step::Decompose {
                certs: copied_certs(alloc, certs.as_slice())?,
            }),
            Step::Results { left, right, certs } => Ok(Step::Results {
                left: *left,
                right: *right,
                certs: copied_certs(alloc, certs.as_slice())?,
            }),
        }
    }
}
