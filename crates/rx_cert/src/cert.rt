//! Certificates as trees.
ghost use Rattle.std.specs.Prelude.{◌≡◌, ◌<◌, ◌^◌, IfOk};
ghost use Rattle.rx_cert.specs.Depth.{cert_depth};

use rx_plain::{Boxed, Items};
use rx_poly::Poly;
use rx_row::Row;
use std::alloc::{AllocError, Global};

/// Which rows are summed: their numbers, counted from 0, each with its multiplier.
pub type Parts = Items<(u32, i128)>;

/// Why no integers meet a list of rows. All kinds but the first go on with more rows after those,
/// or with others in their place.
#[derive(Debug, Drop, PartialEq, Eq)]
pub enum Cert {
    /// A sum of the rows is a negative number.
    Sum(Parts),
    /// A sum of the rows, divided by a number of at least 1 and rounded down, is at least 0.
    Cut {
        /// The parts of the sum.
        parts: Parts,
        /// The divisor, of which each coefficient but the constant is a multiple.
        div: i128,
        /// What refutes the rows with the new one.
        rest: Boxed<Cert>,
    },
    /// A row holds, or its negation does.
    Split {
        /// The row.
        row: Row,
        /// What refutes the rows with the row.
        yes: Boxed<Cert>,
        /// What refutes them with its negation.
        no: Boxed<Cert>,
    },
    /// What is not 0 is at least 1, or at most -1.
    Differ {
        /// The number of the disequality.
        at: u32,
        /// What refutes the rows with `p - 1 >= 0`.
        pos: Boxed<Cert>,
        /// What refutes them with `-p - 1 >= 0`.
        neg: Boxed<Cert>,
    },
    /// An equation, or `p >= 0` and `-p >= 0`, say what a variable is: it is replaced in all rows.
    Solve {
        /// The number of an equation, or of a row `p >= 0`.
        first: u32,
        /// The same number, or that of the row `-p >= 0`.
        second: u32,
        /// The variable.
        var: u32,
        /// What refutes the rows with its value in its place.
        rest: Boxed<Cert>,
    },
    /// What is known of the quotient and the remainder by a number: where the dividend is at least
    /// 0, and where it is below.
    DivFacts {
        /// The dividend.
        num: Poly,
        /// The divisor, which is not 0.
        den: i128,
        /// What refutes the rows with the facts of a dividend of at least 0.
        pos: Boxed<Cert>,
        /// What refutes them with the facts of one below.
        neg: Boxed<Cert>,
    },
}

/// A copy of the certificate in the box, in a box.
#[cycle(clones)]
fn copy(alloc: Global, cert: &Boxed<Cert>) -> Result<Boxed<Cert>, AllocError>
    ensures { IfOk result (λ c. c ≡ cert.now) }
{
    let copy = cert.get().try_clone(alloc)?;
    Boxed::new(alloc, copy)
}

/// A copy of the parts.
fn copy_parts(alloc: Global, parts: &Parts) -> Result<Parts, AllocError>
    ensures { IfOk result (λ ps. ps ≡ parts.now) }
{
    Items::from_slice(alloc, parts.as_slice())
}

impl Cert {
    /// How deep the certificate is: 1, and 1 more for each level of certificates in it. Takes no
    /// memory.
    pub fn depth(&self) -> u32
        requires { cert_depth self.now < 2 ^ 32 }
        ensures { result ≡ cert_depth self.now }
    {
        match self {
            Cert::Sum(_) => 1,
            Cert::Cut { rest, .. } => 1 + rest.get().depth(),
            Cert::Split { yes, no, .. } => 1 + yes.get().depth().max(no.get().depth()),
            Cert::Differ { pos, neg, .. } => 1 + pos.get().depth().max(neg.get().depth()),
            Cert::Solve { rest, .. } => 1 + rest.get().depth(),
            Cert::DivFacts { pos, neg, .. } => 1 + pos.get().depth().max(neg.get().depth()),
        }
    }

    /// A copy of the certificate; fails only where memory runs out.
    #[cycle(clones)]
    pub fn try_clone(&self, alloc: Global) -> Result<Cert, AllocError>
        ensures { IfOk result (λ c. c ≡ self.now) }
    {
        match self {
            Cert::Sum(parts) => Ok(Cert::Sum(copy_parts(alloc, parts)?)),
            Cert::Cut { parts, div, rest } => Ok(Cert::Cut {
                parts: copy_parts(alloc, parts)?,
                div: *div,
                rest: copy(alloc, rest)?,
            }),
            Cert::Split { row, yes, no } => Ok(Cert::Split {
                row: row.try_clone(alloc)?,
                yes: copy(alloc, yes)?,
                no: copy(alloc, no)?,
            }),
            Cert::Differ { at, pos, neg } => Ok(Cert::Differ {
                at: *at,
                pos: copy(alloc, pos)?,
                neg: copy(alloc, neg)?,
            }),
            Cert::Solve {
                first,
                second,
                var,
                rest,
            } => Ok(Cert::Solve {
                first: *first,
                second: *second,
                var: *var,
                rest: copy(alloc, rest)?,
            }),
            Cert::DivFacts { num, den, pos, neg } => Ok(Cert::DivFacts {
                num: num.try_clone(alloc)?,
                den: *den,
                pos: copy(alloc, pos)?,
                neg: copy(alloc, neg)?,
            }),
        }
    }
}

/// The same certificates once more; fails only when out of memory.
pub fn copied_certs(alloc: Global, certs: &[Cert]) -> Result<Items<Cert>, AllocError>
    ensures { IfOk result (λ made. made ≡ certs.now) }
{
    let mut made = Items::with_capacity(alloc, certs.len())?;
    for cert in certs {
        made.push(cert.try_clone(alloc)?)?;
    }
    Ok(made)
}
