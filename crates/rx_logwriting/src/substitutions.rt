//! Substitutions.
ghost use Rattle.std.specs.Prelude.{◌≡◌};
ghost use Rattle.std.specs.List.{list_all};
ghost use Rattle.rx_text.specs.Polynomials.{polynomials};
ghost use Rattle.rx_words.specs.Substitutions.{substitutions};
ghost use Rattle.rx_words.specs.Words.{pairs, variables, word};

use crate::lists::is_count;
use crate::polynomials::poly_has_text;
use rx_poly::Poly;

/// The greatest variable that has a text.
const LAST_VARIABLE: u32 = 999_999;

/// Whether the variable has a text: whether it is below 1,000,000.
pub(crate) fn is_variable(var: u32) -> bool
    ensures { result ≡ variables.in_range var }
{
    var <= LAST_VARIABLE
}

/// Whether a variable and the polynomial in its place have a text.
fn replacement_has_text(replacement: &(u32, Poly)) -> bool
    ensures { result ≡ (pairs variables (word polynomials)).in_range replacement.now }
{
    is_variable(replacement.0) && poly_has_text(&replacement.1)
}

/// Whether all of the variables and polynomials have a text.
fn each_replacement_has_text(subst: &[(u32, Poly)]) -> bool
    ensures { result ≡ list_all (pairs variables (word polynomials)).in_range subst.now }
{
    for replacement in subst {
        if !replacement_has_text(replacement) {
            return false;
        }
    }
    true
}

/// Whether the substitution has a text: whether its variables are below 1,000,000, its polynomials
/// have a text, and they are few enough.
pub fn subst_has_text(subst: &[(u32, Poly)]) -> bool
    ensures { result ≡ substitutions.in_range subst.now }
{
    is_count(subst.len()) && each_replacement_has_text(subst)
}
