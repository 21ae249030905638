//! Trees for a rule set, symbol by symbol.
ghost use Rattle.std.specs.Prelude.{◌≡◌, All, true, IfOk, IfErr, IfSome, MatchOption};
ghost use Rattle.rx_cover.specs.Covering.{Covers, covering};
ghost use Rattle.rx_find_cover.specs.Answers.{AreSmall, IsCover, outcome};
ghost use Rattle.rx_find_cover.specs.Coverable.{coverage, is_coverable};
ghost use Rattle.rx_find_cover.specs.Coverage.{beyond, fails};
ghost use Rattle.rx_solve.specs.Answers.{IsSolver};

use crate::built::Built;
use crate::shapes::build_symbol;
use rx_cert::Cert;
use rx_cover::CoverTree;
use rx_fm::FmEnd;
use rx_plain::{Items, NoMemory};
use rx_row::Constraint;
use rx_term::{RuleParts, RuleSet};
use std::alloc::Global;

/// Cover trees for each symbol of the rule set in order, up to the first that has none.
fn build_cover<S: FnMut(&Constraint) -> Result<Option<Cert>, FmEnd>>(
    alloc: Global,
    parts: &RuleParts,
    solve: &mut S,
) -> Result<Built<Items<Items<CoverTree>>>, NoMemory>
    requires solver { IsSolver S.FnMut solve.old }
    ensures solver { IsSolver S.FnMut solve.new }
    ensures coverage { IfOk result (λ b. outcome b ≡ coverage parts.now) }
    ensures lists { IfOk result (λ b. IfSome b.made (IsCover parts.now)) }
{
    let mut lists = Items::new(alloc);
    let mut noted = false;
    for (sym, info) in parts.symbols.as_slice().iter().enumerate() {
        let tried = build_symbol(alloc, parts, sym, info.frame, solve)?;
        noted = noted || tried.noted;
        let Some(trees) = tried.made else {
            return Ok(Built { made: None, noted });
        };
        lists.push(trees)?;
    }
    Ok(Built {
        made: Some(lists),
        noted,
    })
}

/// Lists of trees that cover the rule set, one list for each symbol in order, one tree for each
/// shape of a redex with it, so that `covers` accepts them. The path of each begins with the
/// symbol's domain. At a path a tree uses the first rule of
/// its shape whose rows the solver shows there; where there is none, it splits by the first row of
/// these rules that is neither plain nor the negation of a row of the path; where there is no such
/// row, or 32 splits are above, the solver is to refute the path. Trees are at most 33 deep, their
/// certificates at most 174, and their variables are those of the rows of the
/// rules and of the domains.
///
/// None exactly where the set isn't coverable so and nothing that was tried passed the limits,
/// Large exactly where it isn't and something did. What passes the limits counts as not shown.
/// Out of memory is also the answer for a set of more than 2^32 rules, whose numbers no tree can
/// name.
pub fn find_cover<S: FnMut(&Constraint) -> Result<Option<Cert>, FmEnd>>(
    alloc: Global,
    rules: &RuleSet,
    solve: &mut S,
) -> Result<Option<Items<Items<CoverTree>>>, FmEnd>
    requires solver { IsSolver S.FnMut solve.old }
    ensures solver { IsSolver S.FnMut solve.new }
    ensures found { IfOk result (λ a. MatchOption a (coverage rules.now ≡ fails)
        (λ lists. is_coverable rules.now ≡ true)) }
    ensures large { IfErr result (λ e. e ≡ FmEnd.Large → coverage rules.now ≡ beyond) }
    ensures covers { IfOk result (λ a. IfSome a (λ lists. covering rules.now lists ≡ Covers)) }
    ensures small { IfOk result (λ a. IfSome a (λ lists. All (AreSmall rules.now) lists)) }
{
    match build_cover(alloc, rules.parts(), solve) {
        Ok(
            Built {
                made: Some(lists),
                ..
            },
        ) => Ok(Some(lists)),
        Ok(
            Built {
                made: None,
                noted: false,
            },
        ) => Ok(None),
        Ok(
            Built {
                made: None,
                noted: true,
            },
        ) => Err(FmEnd::Large),
        Err(NoMemory) => Err(FmEnd::NoMemory),
    }
}
