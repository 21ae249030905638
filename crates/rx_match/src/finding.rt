//! The use of a hypothesis, found by a solver.
ghost use Rattle.std.specs.Prelude.{◌≡◌, true, IfOk, IfSome};
ghost use Rattle.rx_cert.specs.Showing.{all_shown};
ghost use Rattle.rx_match.specs.Beside.{matching_beside, use_beside, use_beside_at};
ghost use Rattle.rx_inference.specs.Pieces.{have_one_shape};
ghost use Rattle.rx_match.specs.Matching.{asked_rows, is_matched, matching, use_at, use_of, use_with};
ghost use Rattle.rx_plain.specs.Formed.{Forms};
ghost use Rattle.rx_match.specs.Uses.{HasOwnVariables, IsLawful, IsShown, IsShownAt, UseAnswers};
ghost use Rattle.rx_solve.specs.Answers.{IsSolver};
ghost use Rattle.rx_solve.specs.Attempts.{where_shown};
ghost use Rattle.rx_solve.specs.Refuter.{refuted};

use crate::beside::{Spot, match_beside};
use crate::matching::match_part;
use crate::place::has_left_shape;
use crate::unset::is_rule_set;
use rx_cert::Cert;
use rx_fm::FmEnd;
use rx_inference::{Side, hypothesis_at, is_substitution, side_of};
use rx_plain::{Items, NoMemory};
use rx_poly::Poly;
use rx_row::{Constraint, Row};
use rx_solve::{AllShown, show_all};
use rx_term::{Equation, Rule, RuleSet, Term};
use std::alloc::{AllocError, Global};

/// A use of a hypothesis.
#[derive(Drop)]
pub struct Use {
    /// What its variables are replaced by, rising by their numbers.
    pub subst: Items<(u32, Poly)>,
    /// For the rows that the step asks and that aren't plain, in their order.
    pub certs: Items<Cert>,
}

/// Whether all variables of the hypothesis are set, and a step may replace them so.
fn is_matched(
    alloc: Global,
    hypothesis: &Rule,
    subst: &Items<(u32, Poly)>,
) -> Result<bool, AllocError>
    ensures { IfOk result (λ b. b ≡ is_matched hypothesis.now subst.now) }
{
    let with = subst.as_slice();
    Ok(is_rule_set(alloc, with, hypothesis)? && is_substitution(with))
}

/// The rows that the hypothesis asks for in place of the part.
fn asked_rows(
    alloc: Global,
    hypothesis: &Rule,
    part: &Term,
    subst: &Items<(u32, Poly)>,
) -> Result<Items<Row>, FmEnd>
    ensures forms { Forms FmEnd.Large result (asked_rows subst.now part.now hypothesis.now) }
{
    let instance = hypothesis_at(alloc, part, hypothesis, subst.as_slice())?;
    Ok(instance.rows)
}

/// The use with that substitution, where the rows are shown.
fn use_shown<S: FnMut(&Constraint) -> Result<Option<Cert>, FmEnd>>(
    alloc: Global,
    given: &Constraint,
    rows: &[Row],
    subst: Items<(u32, Poly)>,
    solve: &mut S,
) -> Result<Option<Use>, FmEnd>
    requires solver { IsSolver S.FnMut solve.old }
    ensures solver { IsSolver S.FnMut solve.new }
    ensures answer { UseAnswers (where_shown (all_shown refuted given.now rows.now) subst) result }
    ensures shown { IfOk result (λ a. IfSome a (IsShown given.now rows.now subst)) }
{
    match show_all(alloc, given, rows, solve) {
        Ok(AllShown::Shown(certs)) => Ok(Some(Use { subst, certs })),
        Ok(AllShown::NotShown) => Ok(None),
        Ok(AllShown::TooLarge) => Err(FmEnd::Large),
        Err(NoMemory) => Err(FmEnd::NoMemory),
    }
}

/// The use at the part with that substitution, where all variables are set and all that is asked is
/// shown.
fn use_with<S: FnMut(&Constraint) -> Result<Option<Cert>, FmEnd>>(
    alloc: Global,
    goal: &Equation,
    hypothesis: &Rule,
    part: &Term,
    subst: Items<(u32, Poly)>,
    solve: &mut S,
) -> Result<Option<Use>, FmEnd>
    requires solver { IsSolver S.FnMut solve.old }
    ensures solver { IsSolver S.FnMut solve.new }
    ensures answer { UseAnswers (use_with goal.now hypothesis.now part.now subst) result }
    ensures shown { IfOk result (λ a. IfSome a (IsShownAt goal.now hypothesis.now part.now subst)) }
{
    if !is_matched(alloc, hypothesis, &subst)? {
        return Ok(None);
    }
    let rows = asked_rows(alloc, hypothesis, part, &subst)?;
    use_shown(alloc, &goal.rows, rows.as_slice(), subst, solve)
}

/// The use at the part, where it has the shape of the hypothesis's left side.
fn use_at<S: FnMut(&Constraint) -> Result<Option<Cert>, FmEnd>>(
    alloc: Global,
    goal: &Equation,
    hypothesis: &Rule,
    part: &Term,
    solve: &mut S,
) -> Result<Option<Use>, FmEnd>
    requires solver { IsSolver S.FnMut solve.old }
    ensures solver { IsSolver S.FnMut solve.new }
    ensures answer { UseAnswers (use_at goal.now hypothesis.now part.now) result }
    ensures shown { IfOk result (λ a. IfSome a
        (IsShownAt goal.now hypothesis.now part.now (matching hypothesis.now part.now).form)) }
    ensures shape { IfOk result (λ a. IfSome a
        (λ u. have_one_shape part.now hypothesis.now.left ≡ true)) }
{
    if !has_left_shape(part, hypothesis) {
        return Ok(None);
    }
    let subst = match_part(alloc, hypothesis, part)?;
    use_with(alloc, goal, hypothesis, part, subst, solve)
}

/// The use of the hypothesis at the part of that side that is under that many frames: with what its
/// variables are replaced by, and certificates for the rows that the step asks. Its variables are
/// set by the arguments of the part, and then by the equations among its rows, in as many passes as
/// it has rows. The solver is asked in place of the refuter. Certificates are at most 174 deep.
///
/// None where there is no such part, where it hasn't the shape of the hypothesis's left side, where
/// a variable stays unset or isn't below 2^31, and where the negation of the first row that isn't
/// shown isn't refuted. Large exactly where the value of a variable, its instance or a polynomial
/// of the step passes the limits, and where something does at the first row that isn't shown.
pub fn find_use<S: FnMut(&Constraint) -> Result<Option<Cert>, FmEnd>>(
    alloc: Global,
    goal: &Equation,
    hypothesis: &Rule,
    side: Side,
    place: u32,
    solve: &mut S,
) -> Result<Option<Use>, FmEnd>
    requires solver { IsSolver S.FnMut solve.old }
    ensures solver { IsSolver S.FnMut solve.new }
    ensures answer { UseAnswers (use_of goal.now hypothesis.now side place) result }
    ensures lawful { IfOk result (λ a. IfSome a (IsLawful goal.now hypothesis.now side place)) }
    ensures own_variables { IfOk result (λ a. IfSome a (HasOwnVariables goal.now hypothesis.now)) }
{
    match side_of(goal, side).suffix(place) {
        Some(part) => use_at(alloc, goal, hypothesis, part, solve),
        None => Ok(None),
    }
}

/// The use at the part, where it has the shape of the hypothesis's left side; the other side may
/// set variables too.
fn use_beside_at<S: FnMut(&Constraint) -> Result<Option<Cert>, FmEnd>>(
    alloc: Global,
    rules: &RuleSet,
    spot: &Spot<'_>,
    part: &Term,
    solve: &mut S,
) -> Result<Option<Use>, FmEnd>
    requires solver { IsSolver S.FnMut solve.old }
    ensures solver { IsSolver S.FnMut solve.new }
    ensures answer { UseAnswers (use_beside_at rules.now spot.now.goal.now spot.now.hypothesis.now
        spot.now.side spot.now.place part.now) result }
    ensures shown { IfOk result (λ a. IfSome a
        (IsShownAt spot.now.goal.now spot.now.hypothesis.now part.now
        (matching_beside rules.now.rules spot.now.goal.now spot.now.hypothesis.now
        spot.now.side spot.now.place part.now).form)) }
    ensures shape { IfOk result (λ a. IfSome a
        (λ u. have_one_shape part.now spot.now.hypothesis.now.left ≡ true)) }
{
    if !has_left_shape(part, spot.hypothesis) {
        return Ok(None);
    }
    let subst = match_beside(alloc, rules.rules(), spot, part)?;
    use_with(alloc, spot.goal, spot.hypothesis, part, subst, solve)
}

/// The use of the hypothesis at the part of that side that is under that many frames, as
/// `find_use`, where the other side of the goal may set variables too. Where a variable is unset
/// after what `find_use` sets, two more things are tried, each with the equations after it:
///
/// - where the part under as many frames of the other side has the shape of the hypothesis's right
///   side, variables there take what stands there;
/// - where the hypothesis returns an unset variable, and the other side is a returned value, a new
///   variable is put in place of the part, and the side is simplified, at most 50 times, each time
///   by the only rule for its redex, which has no rows. Where that ends in a returned value, the
///   hypothesis's variable takes what the new one must be for the two to be equal, if that says a
///   value of it. The new variable is the least above all of the goal; where this isn't below 2^31
///   nothing is set.
///
/// None and Large as of `find_use`, and Large also where a polynomial of these passes the limits.
pub fn find_use_beside<S: FnMut(&Constraint) -> Result<Option<Cert>, FmEnd>>(
    alloc: Global,
    rules: &RuleSet,
    goal: &Equation,
    hypothesis: &Rule,
    side: Side,
    place: u32,
    solve: &mut S,
) -> Result<Option<Use>, FmEnd>
    requires solver { IsSolver S.FnMut solve.old }
    ensures solver { IsSolver S.FnMut solve.new }
    ensures answer { UseAnswers (use_beside rules.now goal.now hypothesis.now side place) result }
    ensures lawful { IfOk result (λ a. IfSome a (IsLawful goal.now hypothesis.now side place)) }
{
    let spot = Spot {
        goal,
        hypothesis,
        side,
        place,
    };
    match side_of(goal, side).suffix(place) {
        Some(part) => use_beside_at(alloc, rules, &spot, part, solve),
        None => Ok(None),
    }
}
