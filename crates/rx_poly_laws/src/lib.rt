//! The variables of polynomials, and laws of normal forms, which the crates above rest on.
//!
//! What a reader may rely on: `uses` and `variables_of` see the variables at every level. Every
//! other function has an empty body, and its contract is a law of all polynomials. The lemmas of
//! `proofs/` are the same laws for the proofs of the crates above.
//!
//! Beside them integer terms, and the normal form of each as a polynomial: `norm` answers exactly
//! the polynomial that the definition forms of a term, with its value; Large exactly where
//! something that is formed on the way passes a limit.
#![tactic(auto)]

mod iterm;
mod laws;
mod norm_laws;
mod normal_form;
mod variables;

pub use iterm::ITerm;
pub use laws::{
    a_polynomial_minus_itself_is_zero, a_used_variable_is_one_of_them,
    an_instance_depends_on_what_its_variables_are_replaced_by,
    coefficients_are_combined_one_by_one, equal_coefficients_make_one_polynomial,
    inner_polynomials_keep_the_limits, instances_have_the_variables_of_their_replacements,
    results_have_the_variables_of_their_parts, the_variable_bound_is_the_least_above_all,
    unchanged_variables_keep_the_polynomial, variables_alone_decide_the_value,
};
pub use norm_laws::normal_forms_have_the_variables_of_their_terms;
pub use normal_form::norm;
pub use rx_poly::uses_below;
pub use variables::{uses, variables_of};
