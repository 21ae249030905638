//! Laws of normal forms.
ghost use Rattle.std.specs.Prelude.{◌≡◌, ◌↔◌, ◌<◌, ◌≤◌, ◌+ℤ◌, ◌-ℤ◌, ◌*ℤ◌, ℕ, ℤ, pos, Bool, true, All, Contains, List};
ghost use Rattle.rx_poly.specs.Normal.{is_poly};
ghost use Rattle.rx_poly.specs.Constants.{number, variable};
ghost use Rattle.rx_poly.specs.Division.{quotient_of, remainder_of};
ghost use Rattle.rx_poly.specs.Limits.{body_sum, is_within, scaled_by, body_difference};
ghost use Rattle.rx_poly.specs.Products.{body_product};
ghost use Rattle.rx_poly.specs.Reading.{coefficient};
ghost use Rattle.rx_poly.specs.Substitution.{subst_body, replaced};
ghost use Rattle.rx_poly.specs.Value.{value};
ghost use Rattle.rx_poly.specs.declared.body.Body.{Body, out-Body};
ghost use Rattle.rx_poly.specs.declared.body.Mono.{Mono};
ghost use Rattle.rx_poly_laws.specs.Inner.{inner};
ghost use Rattle.rx_poly.specs.Variables.{uses, uses_below, variable_bound, variables};
ghost use Rattle.rx_poly_laws.specs.Tests.{passes};

/// A polynomial is determined by its coefficients: two of them in which each monomial has one
/// coefficient are the same.
#[tactic(auto, using(crate::proofs::Coefficients::one_polynomial))]
pub fn equal_coefficients_make_one_polynomial()
    ensures { (p q : Body) → is_poly p ≡ true → is_poly q ≡ true →
        ((m : Mono) → coefficient m (out-Body p).terms ≡ coefficient m (out-Body q).terms) → p ≡ q }
{}

/// Two assignments that agree on the variables of a sum, at every level, give it one value.
#[tactic(auto, using(crate::proofs::Locality::same_value, crate::proofs::Locality::same_value_below))]
pub fn variables_alone_decide_the_value()
    ensures agree { (a b : ℕ → ℤ) (p : Body) → All (λ v. a v ≡ b v) (variables p) → value a p ≡
        value b p }
    ensures below { (a b : ℕ → ℤ) (n : ℕ) (p : Body) → ((v : ℕ) → v < n → a v ≡ b v) →
        uses_below n p ≡ true → value a p ≡ value b p }
{}

/// The dividends and divisors in a polynomial are polynomials themselves: normal forms within the
/// limits.
#[tactic(auto, using(crate::proofs::InnerLaws::inner_polys))]
pub fn inner_polynomials_keep_the_limits()
    ensures { (p : Body) → is_poly p ≡ true → All (λ q. is_poly q ≡ true) (inner p) }
{}

/// A polynomial whose variables all stay what they are is unchanged by a substitution, and nothing
/// that is formed on the way passes the limits.
#[tactic(auto, using(crate::proofs::Unchanged::same_form, crate::proofs::Unchanged::all_within))]
pub fn unchanged_variables_keep_the_polynomial()
    ensures same { (ws : List (ℕ × Body)) (p : Body) → is_poly p ≡ true →
        All (λ v. replaced ws v ≡ variable v) (variables p) → (subst_body ws p).form ≡ p }
    ensures within { (ws : List (ℕ × Body)) (p : Body) → is_poly p ≡ true →
        All (λ v. replaced ws v ≡ variable v) (variables p) → (subst_body ws p).within ≡ true }
{}

/// What is formed of polynomials has no variables but theirs: where the variables of the parts, at
/// every level, all pass a test, those of a sum, difference, multiple, product, quotient or
/// remainder do. A number has none.
pub fn results_have_the_variables_of_their_parts()
    ensures number { (test : ℕ → Bool) (k : ℤ) → passes test (number k) ≡ true }
    ensures variable { (test : ℕ → Bool) (n : ℕ) → test n ≡ true → passes test (variable n) ≡ true }
    ensures sum { (test : ℕ → Bool) (p q : Body) → passes test p ≡ true → passes test q ≡ true →
        passes test (body_sum p q) ≡ true }
    ensures difference { (test : ℕ → Bool) (p q : Body) → passes test p ≡ true → passes test q ≡
        true →
        passes test (body_difference p q) ≡ true }
    ensures multiple { (test : ℕ → Bool) (k : ℤ) (p : Body) → passes test p ≡ true →
        passes test (scaled_by k p) ≡ true }
    ensures product { (test : ℕ → Bool) (p q : Body) → passes test p ≡ true → passes test q ≡ true →
        passes test (body_product p q) ≡ true }
    ensures quotient { (test : ℕ → Bool) (p q : Body) → passes test p ≡ true → passes test q ≡
        true →
        passes test (quotient_of p q) ≡ true }
    ensures remainder { (test : ℕ → Bool) (p q : Body) → passes test p ≡ true → passes test q ≡
        true →
        passes test (remainder_of p q) ≡ true }
{}

/// An instance has no variables but those of the polynomials that its variables are replaced by.
pub fn instances_have_the_variables_of_their_replacements()
    ensures { (test : ℕ → Bool) (ws : List (ℕ × Body)) (p : Body) →
        All (λ v. passes test (replaced ws v) ≡ true) (variables p) →
        passes test (subst_body ws p).form ≡ true }
{}

/// What a polynomial becomes by a substitution depends only on what its own variables are replaced
/// by; so does whether all that is formed on the way keeps the limits.
pub fn an_instance_depends_on_what_its_variables_are_replaced_by()
    ensures { (ws us : List (ℕ × Body)) (p : Body) →
        All (λ v. replaced ws v ≡ replaced us v) (variables p) → subst_body ws p ≡ subst_body us p }
{}

/// A polynomial minus itself is 0, which passes no limit.
pub fn a_polynomial_minus_itself_is_zero()
    ensures same { (p : Body) → is_poly p ≡ true → body_difference p p ≡ number (pos 0) }
    ensures within { (p : Body) → is_poly p ≡ true → is_within (body_difference p p) ≡ true }
{}

/// The coefficient of a monomial in a sum is the sum of its coefficients in both, in a difference
/// their difference, and in a multiple the product with the number.
pub fn coefficients_are_combined_one_by_one()
    ensures sum { (m : Mono) (p q : Body) → is_poly p ≡ true → is_poly q ≡ true →
        coefficient m (out-Body (body_sum p q)).terms ≡
        coefficient m (out-Body p).terms +ℤ coefficient m (out-Body q).terms }
    ensures difference { (m : Mono) (p q : Body) → is_poly p ≡ true → is_poly q ≡ true →
        coefficient m (out-Body (body_difference p q)).terms ≡
        coefficient m (out-Body p).terms -ℤ coefficient m (out-Body q).terms }
    ensures multiple { (m : Mono) (k : ℤ) (p : Body) → is_poly p ≡ true →
        coefficient m (out-Body (scaled_by k p)).terms ≡ coefficient m (out-Body p).terms *ℤ k }
{}

/// All variables of a polynomial are below a number exactly where it is at least the least number
/// above them.
#[tactic(auto, using(crate::proofs::BoundLaws::below_the_bound))]
pub fn the_variable_bound_is_the_least_above_all()
    ensures { (n : ℕ) (p : Body) → (uses_below n p ≡ true) ↔ (variable_bound p ≤ n) }
{}

/// A variable is used exactly where it is one of the variables.
#[tactic(auto, using(crate::proofs::BoundLaws::used_is_contained))]
pub fn a_used_variable_is_one_of_them()
    ensures { (x : ℕ) (p : Body) → (uses x p ≡ true) ↔ Contains (variables p) x }
{}
