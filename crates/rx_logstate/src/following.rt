//! The state of a proof while the lines of its log come.
ghost use Rattle.std.specs.Prelude.{◌≡◌, ◌+◌, ◌∷◌, ◌++◌, [], ℕ, List, Option, Some, false, min, option_map, unwrap_or, IfOk, OnOk};
ghost use Rattle.rx_domain.specs.declared.domains.Domains.{Domains};
ghost use Rattle.rx_inference.specs.declared.step.Step.{Step};
ghost use Rattle.rx_log.specs.Reading.{blank, pushed};
ghost use Rattle.rx_log.specs.declared.log.Log.{Log};
ghost use Rattle.rx_term.specs.declared.rule.Equation.{Equation};
ghost use Rattle.rx_term.specs.declared.rule_set.RuleParts.{RuleParts};
ghost use Rattle.rx_row.specs.declared.row.Row.{Row};
ghost use Rattle.rx_logstate.specs.Following.{Arrives, Concludes, Follows, FollowsNext, Goes, IsInOrder, SaysFault};
ghost use Rattle.rx_logstate.specs.Fronts.{after_domain, after_header, after_keep};

use crate::at_step::AtStep;
use crate::front_lines::{Fronts, count_after};
use crate::inside::Inside;
use rx_inference::Step;
use rx_log::Line;
use rx_pairs::RankTable;
use rx_plain::{Items, NoMemory};
use rx_poly::Poly;
use rx_row::Constraint;
use rx_steps::{State, StepEnd, apply_owned};
use rx_term::{Equation, RuleSet};
use std::alloc::Global;

// Where they begin behind a header with nothing else before them.
const AFTER_HEADER: Fronts = Fronts {
    keeps: 2,
    covers: 2,
};

/// Whether a step wasn't accepted, by how its application ended; NoMemory where that isn't known.
fn is_fault(end: Result<(), StepEnd>) -> Result<bool, NoMemory>
    ensures { IfOk result (SaysFault end) }
{
    match end {
        Ok(()) => Ok(false),
        Err(StepEnd::NoMemory) => Err(NoMemory),
        Err(
            StepEnd::NoGoal
            | StepEnd::WrongShape
            | StepEnd::NoSuchRule
            | StepEnd::NotShown { condition: _ }
            | StepEnd::Large,
        ) => Ok(true),
    }
}

/// How far steps have brought a proof.
#[derive(Drop)]
struct Reached {
    // The state after them, as far as they are accepted.
    state: State,
    // Whether one of them isn't.
    is_refused: bool,
}

impl Reached {
    /// Takes a step, where those so far are accepted.
    fn apply(&mut self, alloc: Global, rules: &RuleSet, step: Step) -> Result<(), NoMemory>
        requires { self.old.is_refused ≡ false }
        ensures { OnOk result ((goal : Equation) (steps : List Step) →
            Arrives self.old rules.now goal steps →
            Arrives self.new rules.now goal (steps ++ step ∷ [])) }
    {
        let end = apply_owned(alloc, &mut self.state, rules, step);
        self.is_refused = is_fault(end)?;
        Ok(())
    }

    /// Takes a step.
    fn take(&mut self, alloc: Global, rules: &RuleSet, step: Step) -> Result<(), NoMemory>
        ensures { OnOk result ((goal : Equation) (steps : List Step) →
            Arrives self.old rules.now goal steps →
            Arrives self.new rules.now goal (steps ++ step ∷ [])) }
    {
        if self.is_refused {
            drop(step);
            return Ok(());
        }
        self.apply(alloc, rules, step)
    }
}

/// How far the steps of a log have brought a proof, over the rules with its domains.
#[derive(Drop)]
struct Proof {
    // The domains of the log, and the rules with them.
    inside: Inside,
    // Whether a step came and the domains aren't lawful.
    is_unlawful: bool,
    // How far the steps have brought the proof, unless that is so.
    reached: Reached,
}

impl Proof {
    /// Takes a step, where the domains are lawful as far as that is known.
    fn apply(&mut self, alloc: Global, rules: &RuleSet, step: Step) -> Result<(), NoMemory>
        requires { self.old.is_unlawful ≡ false }
        ensures { OnOk result ((goal : Equation) (domains : Option Domains) (steps : List Step) →
            Goes self.old rules.now goal domains steps →
            Goes self.new rules.now goal domains (steps ++ step ∷ [])) }
    {
        if self.inside.make(alloc, rules)? {
            return self.reached.take(alloc, self.inside.rules(rules), step);
        }
        drop(step);
        self.is_unlawful = true;
        Ok(())
    }

    /// Takes a step.
    fn take(&mut self, alloc: Global, rules: &RuleSet, step: Step) -> Result<(), NoMemory>
        ensures { OnOk result ((goal : Equation) (domains : Option Domains) (steps : List Step) →
            Goes self.old rules.now goal domains steps →
            Goes self.new rules.now goal domains (steps ++ step ∷ [])) }
    {
        if self.is_unlawful {
            drop(step);
            return Ok(());
        }
        self.apply(alloc, rules, step)
    }
}

/// What is kept of a log whose lines come one by one.
#[derive(Drop)]
pub(crate) struct Follower {
    // The number of the step that is looked for.
    number: usize,
    // Where the lines behind those about domains begin, where the log has any.
    fronts: Option<Fronts>,
    // How many covers came.
    covers: usize,
    // How many steps came.
    steps: usize,
    // How far those before the number have brought the proof.
    proof: Proof,
    // The step that is looked for, once it came.
    step: Items<Step>,
    // The ranks so far.
    table: RankTable,
}

/// The sum; NoMemory where there is none.
fn sum(first: usize, second: usize) -> Result<usize, NoMemory>
    ensures { IfOk result (λ sum. sum ≡ first + second) }
{
    match first.checked_add(second) {
        Some(sum) => Ok(sum),
        None => Err(NoMemory),
    }
}

impl Follower {
    /// Nothing has come yet, for the goal and any rules.
    pub(crate) fn start(alloc: Global, goal: Equation, number: usize) -> Result<Follower, NoMemory>
        ensures follows { IfOk result (λ follower. (parts : RuleParts) →
            Follows follower parts goal number blank) }
    {
        let state = State::start(alloc, goal)?;
        let reached = Reached {
            state,
            is_refused: false,
        };
        let proof = Proof {
            inside: Inside {
                rows: None,
                set: None,
            },
            is_unlawful: false,
            reached,
        };
        let table = RankTable {
            columns: 1,
            ranks: Items::new(alloc),
        };
        Ok(Follower {
            number,
            fronts: None,
            covers: 0,
            steps: 0,
            proof,
            step: Items::new(alloc),
            table,
        })
    }

    /// Takes a step: one before the number is applied, the one with the number is kept. It isn't
    /// counted.
    fn place_step(&mut self, alloc: Global, rules: &RuleSet, step: Step) -> Result<(), NoMemory>
        ensures places { OnOk result ((goal : Equation) (number : ℕ) (log : Log) →
            Follows self.old rules.now goal number log →
            FollowsNext self.new rules.now goal number (pushed (Line.Step step) log)) }
        ensures counted { OnOk result (self.new.steps ≡ self.old.steps) }
    {
        if self.steps < self.number {
            self.proof.take(alloc, rules, step)?;
            return Ok(());
        }
        if self.steps == self.number {
            self.step.push(step)?;
            return Ok(());
        }
        drop(step);
        Ok(())
    }

    /// Takes a step: one before the number is applied, the one with the number is kept.
    fn take_step(&mut self, alloc: Global, rules: &RuleSet, step: Step) -> Result<(), NoMemory>
        ensures { OnOk result ((goal : Equation) (number : ℕ) (log : Log) →
            Follows self.old rules.now goal number log →
            Follows self.new rules.now goal number (pushed (Line.Step step) log)) }
    {
        self.place_step(alloc, rules, step)?;
        self.steps = count_after(self.steps)?;
        Ok(())
    }

    /// Begins with no domain.
    fn take_header(&mut self, alloc: Global)
        ensures { self.new ≡ record self.old {
          proof = record self.old.proof { inside = record self.old.proof.inside { rows = Some [] } };
          fronts = Some after_header;
        } }
    {
        self.proof.inside.begin(alloc);
        self.fronts = Some(AFTER_HEADER);
    }

    /// Keeps a domain, where the log has any.
    fn take_domain(&mut self, rows: Constraint) -> Result<(), NoMemory>
        ensures { OnOk result (self.new ≡ record self.old {
          proof = record self.old.proof {
            inside = record self.old.proof.inside {
              rows = option_map (λ (lists : List (List Row)). lists ++ rows ∷ [])
                  self.old.proof.inside.rows;
            };
          };
          fronts = option_map after_domain self.old.fronts;
        }) }
    {
        self.proof.inside.push(rows)?;
        self.count_domain()
    }

    /// Counts a domain, where the log has any.
    fn count_domain(&mut self) -> Result<(), NoMemory>
        ensures { OnOk result (self.new ≡ record self.old {
          fronts = option_map after_domain self.old.fronts;
        }) }
    {
        match self.fronts {
            Some(fronts) => {
                self.fronts = Some(fronts.after_domain()?);
                Ok(())
            }
            None => Ok(()),
        }
    }

    /// Counts a list of certificates that a part keeps the domains, where the log has any.
    fn take_keep(&mut self) -> Result<(), NoMemory>
        ensures { OnOk result (self.new ≡ record self.old {
          fronts = option_map after_keep self.old.fronts;
        }) }
    {
        match self.fronts {
            Some(fronts) => {
                self.fronts = Some(fronts.after_keep()?);
                Ok(())
            }
            None => Ok(()),
        }
    }

    /// Counts a cover.
    fn take_cover(&mut self) -> Result<(), NoMemory>
        ensures { OnOk result (self.new ≡ record self.old { covers = self.old.covers + 1 }) }
    {
        self.covers = count_after(self.covers)?;
        Ok(())
    }

    /// Keeps a rank.
    fn take_rank(&mut self, rank: Items<Poly>) -> Result<(), NoMemory>
        ensures { OnOk result (self.new ≡ record self.old {
          table = record self.old.table { ranks = self.old.table.ranks ++ rank ∷ [] };
        }) }
    {
        self.table.ranks.push(rank)?;
        Ok(())
    }

    /// Takes a line. After an `Err` it is of no more use.
    pub(crate) fn line(
        &mut self,
        alloc: Global,
        rules: &RuleSet,
        line: Line,
    ) -> Result<(), NoMemory>
        ensures { OnOk result ((goal : Equation) (number : ℕ) (log : Log) →
            Follows self.old rules.now goal number log → IsInOrder line log →
            Follows self.new rules.now goal number (pushed line log)) }
    {
        match line {
            Line::Header => Ok(()),
            Line::Header2 => {
                self.take_header(alloc);
                Ok(())
            }
            Line::Domain(rows) => self.take_domain(rows),
            Line::Keep(_certs) => self.take_keep(),
            Line::Cover(_trees) => self.take_cover(),
            Line::Step(step) => self.take_step(alloc, rules, step),
            Line::Ranks(columns) => {
                self.table.columns = columns;
                Ok(())
            }
            Line::Rank(rank) => self.take_rank(rank),
            Line::Pair(_cert) => Ok(()),
            Line::End => Ok(()),
        }
    }

    /// Where the lines before the steps begin.
    fn known_fronts(&self) -> Fronts
        ensures { result ≡ unwrap_or self.now.fronts after_header }
    {
        self.fronts.unwrap_or(AFTER_HEADER)
    }

    /// The number of the line of the step that is looked for, or of the one after the last.
    fn line_number(&self, fronts: Fronts) -> Result<usize, NoMemory>
        ensures { IfOk result (λ line. line ≡ fronts.covers + self.now.covers
            + min self.now.number self.now.steps) }
    {
        let before = sum(fronts.covers, self.covers)?;
        sum(before, self.number.min(self.steps))
    }

    /// What is known, with these numbers of lines.
    fn known(self, fronts: Fronts, line: usize) -> AtStep
        ensures { result ≡ record {
          fronts = fronts;
          line = line;
          state = self.proof.reached.state;
          step = self.step;
          table = self.table;
          domains = self.proof.inside.rows;
        } }
    {
        let Follower {
            proof,
            step,
            table,
            ..
        } = self;
        let Proof {
            inside,
            reached,
            ..
        } = proof;
        let Inside { rows, .. } = inside;
        let Reached { state, .. } = reached;
        AtStep {
            fronts,
            line,
            state,
            step,
            table,
            domains: rows,
        }
    }

    /// What is known where the whole log has come; none where a step before isn't accepted, or
    /// comes after domains that aren't lawful.
    pub(crate) fn finish(self) -> Result<Option<AtStep>, NoMemory>
        ensures { IfOk result (λ found. (parts : RuleParts) (goal : Equation) (number : ℕ) (log : Log) →
            Follows self parts goal number log → Concludes parts goal log number found) }
    {
        let fronts = self.known_fronts();
        let line = self.line_number(fronts)?;
        if self.proof.is_unlawful {
            return Ok(None);
        }
        if self.proof.reached.is_refused {
            return Ok(None);
        }
        Ok(Some(self.known(fronts, line)))
    }
}
