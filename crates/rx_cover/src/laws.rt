//! What cover trees mean: laws, each a function with an empty body.
ghost use Rattle.std.specs.Prelude.{◌≡◌, ℕ, ℤ, List};
ghost use Rattle.rx_cert.specs.Findings.{Yes};
ghost use Rattle.rx_cover.specs.Covering.{Covers, covering};
ghost use Rattle.rx_cover.specs.Example.{trees};
ghost use Rattle.rx_cover.specs.Trees.{tree_finding};
ghost use Rattle.rx_cover.specs.declared.cover_tree.CoverTree.{CoverTree};
ghost use Rattle.rx_row.specs.Holds.{AllHold};
ghost use Rattle.rx_row.specs.declared.row.Row.{Row};
ghost use Rattle.rx_term.specs.Covered.{HasRule, IsCoveredOver};
ghost use Rattle.rx_term.specs.Domains.{root_domains};
ghost use Rattle.rx_term.specs.Example.{example};
ghost use Rattle.rx_term.specs.Shapes.{Shape};
ghost use Rattle.rx_term.specs.declared.rule.Rule.{Rule};
ghost use Rattle.rx_term.specs.declared.rule_set.RuleParts.{RuleParts};

/// Where a tree shows its shape at a path, each assignment that meets the path's rows meets those
/// of some rule of the shape.
#[tactic(auto, using(crate::proofs::TreeLaws::tree_covers))]
pub fn a_tree_covers_its_path()
    ensures { (rules : List Rule) (shape : Shape) (a : ℕ → ℤ) (tree : CoverTree) (path : List Row) →
        tree_finding rules shape tree path ≡ Yes → AllHold a path → HasRule rules shape a }
{}

/// A rule set that lists of trees cover is covered: at each redex whose arguments meet the domain of
/// its symbol some rule applies.
#[tactic(auto, using(crate::proofs::CoveringLaws::covers_all))]
pub fn trees_cover_rule_sets()
    ensures covered { (parts : RuleParts) (lists : List (List CoverTree)) →
        covering parts lists ≡ Covers → IsCoveredOver (root_domains parts) parts }
    ensures example { covering example trees ≡ Covers }
{}
