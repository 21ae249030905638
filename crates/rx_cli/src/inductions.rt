//! Proofs of the equation of a rule text: the search for one, and the replay of the one in a log.
ghost use Rattle.std.specs.Prelude.{◌≡◌, ◌≤◌, [], true, IfOk, IfErr, MatchBool};
ghost use Rattle.c_front.specs.Stages.{IfGoes};
ghost use Rattle.rx_cache.specs.CachedSolver.{IsCachedSolver};
ghost use Rattle.rx_find_cover.specs.Coverable.{coverage, is_coverable};
ghost use Rattle.rx_find_cover.specs.Coverage.{beyond, fails};
ghost use Rattle.rx_io.specs.Outside.{Rose};
ghost use Rattle.rx_proofs.specs.Goals.{IsFitting};
ghost use Rattle.rx_report.specs.Reports.{IsReportable};
ghost use Rattle.rx_report.specs.Texts.{IsReportableVerdict};
ghost use Rattle.rx_solve.specs.Answers.{Answers, IsSolver};
ghost use Rattle.rx_cli.specs.Inductions as spec;
ghost use Rattle.rx_cli.specs.Inductions.{IsSought, OnCoverage};
ghost use Rattle.rx_cli.specs.Problems.{posed};
ghost use Rattle.rx_cli.specs.Steps.{IsReportableNext, ReplaysNamed};

use crate::check::on_named;
use crate::problems::Problem;
use crate::proving::{CACHED_ANSWERS, search_by};
use c_front::Next;
use rx_cache::CachedSolver;
use rx_cert::Cert;
use rx_command::Effort;
use rx_find_cover::find_cover;
use rx_fm::FmEnd;
use rx_io::Files;
use rx_plain::NoMemory;
use rx_report::{Answer, Verdict};
use rx_row::Constraint;
use rx_rulefile::{RuleEnd, read_rules};
use rx_solve::refutes;
use rx_term::RuleSet;
use std::alloc::Global;

/// The problem that a rule text poses, or why it poses none.
#[tactic(auto, using(crate::proofs::Induced::posed_bare, crate::proofs::Induced::posed_fits))]
pub(crate) fn pose(alloc: Global, source: &[u8]) -> Result<Next<Verdict, Problem>, NoMemory>
    ensures stage { IfOk result (posed source.now) }
    ensures fits { IfOk result (λ next. IfGoes next (λ q. IsFitting q.rules q.goal)) }
    ensures no_domains { IfOk result (λ next. IfGoes next (λ q. q.rules.domains ≡ [])) }
    ensures line { IfOk result IsReportableNext }
{
    match read_rules(alloc, source) {
        Ok((rules, goal)) => Ok(Next::Goes(Problem { rules, goal })),
        Err(RuleEnd::BadLine { line }) => Ok(Next::Ends(Verdict::RuleLine(line))),
        Err(RuleEnd::NotMade { rule }) => Ok(Next::Ends(Verdict::NotMade(rule))),
        Err(RuleEnd::NoMemory) => Err(NoMemory),
    }
}

/// Whether trees are found that cover the rules; Large exactly where none are, and something on the
/// way passed the limits.
fn has_cover<S: FnMut(&Constraint) -> Result<Option<Cert>, FmEnd>>(
    alloc: Global,
    rules: &RuleSet,
    solve: &mut S,
) -> Result<bool, FmEnd>
    requires solver { IsSolver S.FnMut solve.old }
    ensures solver { IsSolver S.FnMut solve.new }
    ensures found { IfOk result (λ b. MatchBool b (is_coverable rules.now ≡ true)
        (coverage rules.now ≡ fails)) }
    ensures large { IfErr result (λ e. e ≡ FmEnd.Large → coverage rules.now ≡ beyond) }
{
    let found = find_cover(alloc, rules, solve)?;
    Ok(found.is_some())
}

/// Searches for a proof that solves a problem, where trees are found that cover the rules.
fn seek_by<S: FnMut(&Constraint) -> Result<Option<Cert>, FmEnd>>(
    alloc: Global,
    problem: &Problem,
    effort: Effort,
    solve: &mut S,
) -> Result<Answer, NoMemory>
    requires fits { IsFitting problem.now.rules problem.now.goal }
    requires solver { IsSolver S.FnMut solve.old }
    ensures solver { IsSolver S.FnMut solve.new }
    ensures answer { IfOk result (OnCoverage (coverage problem.now.rules) problem.now effort) }
    ensures reportable { IfOk result IsReportable }
{
    match has_cover(alloc, &problem.rules, solve) {
        Ok(true) => search_by(alloc, problem, effort, solve),
        Ok(false) => Ok(Answer::Line(Verdict::NoCover)),
        Err(FmEnd::Large) => Ok(Answer::Line(Verdict::LargeSearch)),
        Err(FmEnd::NoMemory) => Err(NoMemory),
    }
}

/// The same with the answers of a cached solver: the search asks again for what the trees asked.
fn seek_cached<S: FnMut(&Constraint) -> Result<Option<Cert>, FmEnd>>(
    alloc: Global,
    problem: &Problem,
    effort: Effort,
    cached: CachedSolver<S>,
) -> Result<Answer, NoMemory>
where
    S: Drop,
    requires known { IsCachedSolver S.FnMut cached }
    requires fits { IsFitting problem.now.rules problem.now.goal }
    ensures answer { IfOk result (OnCoverage (coverage problem.now.rules) problem.now effort) }
    ensures reportable { IfOk result IsReportable }
{
    let mut cached = cached;
    let mut solve = move |rows: &Constraint| -> Result<Option<Cert>, FmEnd>
        requires { IsCachedSolver S.FnMut cached }
        ensures known { IsCachedSolver S.FnMut cached.exit }
        ensures answer { Answers rows.now result }
    { cached.refutes(rows) };
    seek_by(alloc, problem, effort, &mut solve)
}

/// Searches for a proof that solves a problem whose rules may not be coverable.
fn on_posed(alloc: Global, problem: &Problem, effort: Effort) -> Result<Answer, NoMemory>
    requires fits { IsFitting problem.now.rules problem.now.goal }
    ensures answer { IfOk result (OnCoverage (coverage problem.now.rules) problem.now effort) }
    ensures reportable { IfOk result IsReportable }
{
    let solve = |rows: &Constraint| refutes(alloc, rows);
    let cached = CachedSolver::new(alloc, solve, CACHED_ANSWERS)?;
    seek_cached(alloc, problem, effort, cached)
}

/// Searches for a proof of the equation of a rule text, as far as the effort goes.
pub fn seek(alloc: Global, source: &[u8], effort: Effort) -> Result<Answer, NoMemory>
    ensures answer { IfOk result (IsSought effort source.now) }
    ensures reportable { IfOk result IsReportable }
{
    match pose(alloc, source)? {
        Next::Ends(verdict) => Ok(Answer::Line(verdict)),
        Next::Goes(problem) => on_posed(alloc, &problem, effort),
    }
}

/// What is said of a rule text whose log has this verdict.
fn of_induction(verdict: Verdict) -> Verdict
    ensures value { result ≡ spec.of_induction verdict }
    ensures line { IsReportableVerdict verdict → IsReportableVerdict result }
{
    match verdict {
        Verdict::Equivalent => Verdict::Inductive,
        _ => verdict,
    }
}

/// What is said of a rule text and of the log that is read under a name. The log is read only where
/// the text poses a problem.
pub fn replay<F: Files>(
    alloc: Global,
    source: &[u8],
    log: &str,
    files: &mut F,
) -> Result<Verdict, NoMemory>
    ensures reach { F.reaches files.old files.new }
    ensures later { F.faults files.old ≤ F.faults files.new }
    ensures verdict { IfOk result (ReplaysNamed (F.held files.old)
        (Rose (F.faults files.old) (F.faults files.new)) source.now log.now) }
    ensures line { IfOk result IsReportableVerdict }
{
    match pose(alloc, source)? {
        Next::Ends(verdict) => Ok(verdict),
        Next::Goes(problem) => Ok(of_induction(on_named(alloc, problem, files, log)?)),
    }
}
