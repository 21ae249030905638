//! Certificates that a goal and rules keep domains that are shown to be kept.
ghost use Rattle.std.specs.Prelude.{◌≡◌, ◌++◌, None, List, IfOk, OnOk, All, map};
ghost use Rattle.std.specs.List.{AllZip};
ghost use Rattle.rx_cert.specs.Findings.{Yes};
ghost use Rattle.rx_cert.specs.Showing.{all_shown};
ghost use Rattle.rx_domain.specs.Keeping.{KeptPart, goal_part, rule_part};
ghost use Rattle.rx_domain.specs.Setting.{bad_domain, with_domains};
ghost use Rattle.rx_solve.specs.Answers.{AreCertificates, IsSolver};
ghost use Rattle.rx_solve.specs.Bounds.{most_deep};
ghost use Rattle.rx_solve.specs.Refuter.{refuted};
ghost use Rattle.rx_find_domains.specs.Kept.{AreAllKeeps, AreAllShown, AreKeeps, IsShown};

use crate::given::{given_rows, rule_given};
use rx_cert::Cert;
use rx_domain::{DomainEnd, set_domains};
use rx_fm::FmEnd;
use rx_plain::{Items, NoMemory};
use rx_poly::PolyEnd;
use rx_row::{Constraint, Row};
use rx_solve::{AllShown, show_all};
use rx_term::{Equation, Rule, RuleSet, inside_of};
use std::alloc::Global;

/// The certificates of rows that are shown.
fn certify<S: FnMut(&Constraint) -> Result<Option<Cert>, FmEnd>>(
    alloc: Global,
    given: &Constraint,
    rows: &[Row],
    solve: &mut S,
) -> Result<Items<Cert>, NoMemory>
    requires solver { IsSolver S.FnMut solve.old }
    requires shown { all_shown refuted given.now rows.now ≡ Yes }
    ensures solver { IsSolver S.FnMut solve.new }
    ensures certs { IfOk result (λ certs. AreCertificates most_deep given.now rows.now certs) }
{
    match show_all(alloc, given, rows, solve)? {
        AllShown::Shown(certs) => Ok(certs),
        AllShown::NotShown => unreachable!(),
        AllShown::TooLarge => unreachable!(),
    }
}

/// The certificates of the goal.
fn keep_goal<S: FnMut(&Constraint) -> Result<Option<Cert>, FmEnd>>(
    alloc: Global,
    rules: &RuleSet,
    goal: &Equation,
    solve: &mut S,
) -> Result<Items<Cert>, NoMemory>
    requires solver { IsSolver S.FnMut solve.old }
    requires shown { IsShown (goal_part rules.now goal.now) }
    ensures solver { IsSolver S.FnMut solve.new }
    ensures keeps { IfOk result (AreKeeps (goal_part rules.now goal.now)) }
{
    match inside_of(alloc, rules, goal) {
        Ok(asked) => certify(alloc, &goal.rows, asked.as_slice(), solve),
        Err(PolyEnd::Large) => unreachable!(),
        Err(PolyEnd::NoMemory) => Err(NoMemory),
    }
}

/// The certificates of the rule.
fn keep_rule<S: FnMut(&Constraint) -> Result<Option<Cert>, FmEnd>>(
    alloc: Global,
    rules: &RuleSet,
    rule: &Rule,
    solve: &mut S,
) -> Result<Items<Cert>, NoMemory>
    requires solver { IsSolver S.FnMut solve.old }
    requires shown { IsShown (rule_part rules.now rule.now) }
    ensures solver { IsSolver S.FnMut solve.new }
    ensures keeps { IfOk result (AreKeeps (rule_part rules.now rule.now)) }
{
    let sides = rule_given(alloc, rule)?;
    let parts = rules.parts();
    let domains = parts.domains.as_slice();
    let given = given_rows(alloc, &sides, domains)?;
    match rules.inside_rows(alloc, &rule.right) {
        Ok(asked) => certify(alloc, &given, asked.as_slice(), solve),
        Err(PolyEnd::Large) => unreachable!(),
        Err(PolyEnd::NoMemory) => Err(NoMemory),
    }
}

/// Adds the certificates of the rules behind the others.
fn keep_rules<S: FnMut(&Constraint) -> Result<Option<Cert>, FmEnd>>(
    keeps: &mut Items<Items<Cert>>,
    alloc: Global,
    rules: &RuleSet,
    solve: &mut S,
) -> Result<(), NoMemory>
    requires solver { IsSolver S.FnMut solve.old }
    requires shown { All (λ rule. IsShown (rule_part rules.now rule)) rules.now.rules }
    ensures solver { IsSolver S.FnMut solve.new }
    ensures keeps { OnOk result ((parts : List KeptPart) → AllZip AreKeeps parts keeps.old →
        AllZip AreKeeps (parts ++ map (rule_part rules.now) rules.now.rules) keeps.new) }
{
    let list = rules.rules();
    for rule in list {
        let certs = keep_rule(alloc, rules, rule, solve)?;
        keeps.push(certs)?;
    }
    Ok(())
}

/// The certificates of the goal, and then of the rules in order.
fn keep_all<S: FnMut(&Constraint) -> Result<Option<Cert>, FmEnd>>(
    alloc: Global,
    rules: &RuleSet,
    goal: &Equation,
    solve: &mut S,
) -> Result<Items<Items<Cert>>, NoMemory>
    requires solver { IsSolver S.FnMut solve.old }
    requires shown { AreAllShown rules.now goal.now }
    ensures solver { IsSolver S.FnMut solve.new }
    ensures keeps { IfOk result (AreAllKeeps rules.now goal.now) }
{
    let mut keeps = Items::new(alloc);
    let certs = keep_goal(alloc, rules, goal, solve)?;
    keeps.push(certs)?;
    keep_rules(&mut keeps, alloc, rules, solve)?;
    Ok(keeps)
}

/// The certificates that the goal and the rules keep these domains.
pub(crate) fn find_keeps<S: FnMut(&Constraint) -> Result<Option<Cert>, FmEnd>>(
    alloc: Global,
    rules: &RuleSet,
    goal: &Equation,
    rows: &[Constraint],
    solve: &mut S,
) -> Result<Items<Items<Cert>>, NoMemory>
    requires solver { IsSolver S.FnMut solve.old }
    requires lawful { bad_domain rules.now.symbols rows.now ≡ None }
    requires shown { AreAllShown (with_domains rules.now rows.now) goal.now }
    ensures solver { IsSolver S.FnMut solve.new }
    ensures keeps { IfOk result (AreAllKeeps (with_domains rules.now rows.now) goal.now) }
{
    match set_domains(alloc, rules, rows) {
        Ok(inside) => keep_all(alloc, &inside, goal, solve),
        Err(DomainEnd::BadDomain(_)) => unreachable!(),
        Err(DomainEnd::NotKept(_)) => unreachable!(),
        Err(DomainEnd::Large(_)) => unreachable!(),
        Err(DomainEnd::NoMemory) => Err(NoMemory),
    }
}
