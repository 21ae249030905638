//! What is known of each equation that the program holds. These functions do nothing but look at
//! each polynomial.
ghost use Rattle.std.specs.Prelude.{◌≡◌, true};
ghost use Rattle.std.specs.List.{list_all};
ghost use Rattle.rx_inference.specs.Pieces.{is_equation};
ghost use Rattle.rx_lemma.specs.Lawful.{IsGoal};
ghost use Rattle.rx_poly.specs.Normal.{is_poly};
ghost use Rattle.rx_row.specs.Parts.{poly_of};
ghost use Rattle.rx_term.specs.Domains.{are_domains};
ghost use Rattle.rx_term.specs.Variables.{arguments_of};
ghost use Rattle.rx_term.specs.WellMade.{IsWellMade};

use rx_poly::Poly;
use rx_row::Row;
use rx_term::{Equation, RuleSet, Term};

/// Polynomials are normal forms within the limits.
fn see_polys(polys: &[Poly])
    ensures { list_all is_poly polys.now ≡ true }
{
    for poly in polys {
        let _ = poly.body();
    }
}

/// The polynomials of rows are normal forms within the limits.
fn see_rows(rows: &[Row])
    ensures { list_all (λ row. is_poly (poly_of row)) rows.now ≡ true }
{
    for row in rows {
        let _ = row.poly().body();
    }
}

/// The polynomials of a term are normal forms within the limits.
#[tactic(auto, using(crate::proofs::NormalForms::in_return, crate::proofs::NormalForms::in_fail, crate::proofs::NormalForms::in_call, crate::proofs::NormalForms::after_frame))]
fn see_term(term: &Term)
    ensures { list_all is_poly (arguments_of term.now) ≡ true }
{
    let mut here = term;
    loop {
        match here {
            Term::Return(poly) => {
                let _ = poly.body();
                return;
            }
            Term::Fail(_) => return,
            Term::Call(_, args) => {
                see_polys(args.as_slice());
                return;
            }
            Term::Frame(_, args, inner) => {
                see_polys(args.as_slice());
                here = inner.get();
            }
        }
    }
}

/// The premises of the laws hold of each rule set, and of each equation over its symbols: the rules
/// are well made (`made`), their domains are over the arguments of the symbols (`domains`), and the
/// polynomials are normal forms within the limits (`goal`).
pub fn equations_are_goals(rules: &RuleSet, equation: &Equation)
    requires { is_equation rules.now equation.now ≡ true }
    ensures made { IsWellMade rules.now }
    ensures domains { are_domains rules.now.symbols rules.now.domains ≡ true }
    ensures goal { IsGoal rules.now equation.now }
{
    let _ = rules.parts();
    see_term(&equation.left);
    see_term(&equation.right);
    see_rows(equation.rows.rows());
}
