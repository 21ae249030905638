//! Laws of integer terms.
ghost use Rattle.std.specs.Prelude.{◌≡◌, ℕ, Bool, true};
ghost use Rattle.rx_poly_laws.specs.Norm.{norm_of};
ghost use Rattle.rx_poly_laws.specs.Variables.{term_passes};
ghost use Rattle.rx_poly_laws.specs.declared.iterm.ITerm.{ITerm};
ghost use Rattle.rx_poly_laws.specs.Tests.{passes};

/// The normal form of a term has no variables but the term's: where all variables of the term pass
/// a test, those of its normal form do, at every level.
#[tactic(auto, using(crate::proofs::NormVariables::norm_passes))]
pub fn normal_forms_have_the_variables_of_their_terms()
    ensures { (test : ℕ → Bool) (t : ITerm) → term_passes test t ≡ true →
        passes test (norm_of t) ≡ true }
{}
