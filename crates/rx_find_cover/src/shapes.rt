//! The trees of one symbol, one for each shape of a redex with it.
ghost use Rattle.std.specs.Prelude.{◌≡◌, true, map, IfOk, IfSome};
ghost use Rattle.rx_cover.specs.Covering.{redex_shapes, symbol};
ghost use Rattle.rx_find_cover.specs.Answers.{AreTrees, outcome};
ghost use Rattle.rx_cover.specs.Redexes.{shape_at};
ghost use Rattle.rx_find_cover.specs.Coverable.{shapes_coverage};
ghost use Rattle.rx_solve.specs.Answers.{IsSolver};
ghost use Rattle.rx_term.specs.Domains.{domain_of};
ghost use Rattle.rx_term.specs.declared.term.Sym.{Sym};

use crate::building::build;
use crate::built::Built;
use rx_cert::Cert;
use rx_cover::{CoverTree, Redex, domain_rows};
use rx_fm::FmEnd;
use rx_plain::{Items, NoMemory};
use rx_row::Constraint;
use rx_term::{Rule, RuleParts};
use std::alloc::{AllocError, Global};

/// How many splits a way through a tree has at most.
const MOST_SPLITS: u32 = 32;

/// What a frame can be over: a returned value, and then the failures with the codes 1, 2, and
/// so on.
fn frame_redexes(alloc: Global, fails: u8) -> Result<Items<Redex>, AllocError>
    ensures { IfOk result (λ rs. (f : Sym) → map (shape_at f) rs ≡ redex_shapes f true fails) }
{
    let mut redexes = Items::new(alloc);
    redexes.push(Redex::OverReturn)?;
    for before in 0..fails {
        redexes.push(Redex::OverFail(before + 1))?;
    }
    Ok(redexes)
}

/// The redexes with one symbol, a frame or a point.
fn redexes_of(alloc: Global, frame: bool, fails: u8) -> Result<Items<Redex>, AllocError>
    ensures { IfOk result (λ rs. (f : Sym) → map (shape_at f) rs ≡ redex_shapes f frame fails) }
{
    if frame {
        return frame_redexes(alloc, fails);
    }
    let mut redexes = Items::new(alloc);
    redexes.push(Redex::Call)?;
    Ok(redexes)
}

/// The trees for the shapes in order, up to the first that has none at the path.
fn build_shapes<S: FnMut(&Constraint) -> Result<Option<Cert>, FmEnd>>(
    alloc: Global,
    rules: &[Rule],
    sym: usize,
    path: &mut Constraint,
    redexes: &[Redex],
    solve: &mut S,
) -> Result<Built<Items<CoverTree>>, NoMemory>
    requires solver { IsSolver S.FnMut solve.old }
    ensures solver { IsSolver S.FnMut solve.new }
    ensures coverage { IfOk result (λ b. outcome b ≡
        shapes_coverage rules.now path.old (map (shape_at (symbol sym)) redexes.now)) }
    ensures trees { IfOk result (λ b. IfSome b.made
        (AreTrees rules.now path.old (map (shape_at (symbol sym)) redexes.now))) }
{
    let mut trees = Items::new(alloc);
    let mut noted = false;
    for redex in redexes {
        let tried = build(alloc, rules, sym, *redex, path, MOST_SPLITS, solve)?;
        noted = noted || tried.noted;
        let Some(tree) = tried.made else {
            return Ok(Built { made: None, noted });
        };
        trees.push(tree)?;
    }
    Ok(Built {
        made: Some(trees),
        noted,
    })
}

/// The trees for the shapes of the symbol, a frame or a point, up to the first that has none. The
/// path of each begins with the symbol's domain.
pub(crate) fn build_symbol<S: FnMut(&Constraint) -> Result<Option<Cert>, FmEnd>>(
    alloc: Global,
    parts: &RuleParts,
    sym: usize,
    frame: bool,
    solve: &mut S,
) -> Result<Built<Items<CoverTree>>, NoMemory>
    requires solver { IsSolver S.FnMut solve.old }
    ensures solver { IsSolver S.FnMut solve.new }
    ensures coverage { IfOk result (λ b. outcome b ≡
        shapes_coverage parts.now.rules (domain_of parts.now sym)
        (redex_shapes (symbol sym) frame parts.now.fails)) }
    ensures trees { IfOk result (λ b. IfSome b.made
        (AreTrees parts.now.rules (domain_of parts.now sym)
        (redex_shapes (symbol sym) frame parts.now.fails))) }
{
    let redexes = redexes_of(alloc, frame, parts.fails)?;
    let mut path = domain_rows(alloc, parts, sym)?;
    let rules = parts.rules.as_slice();
    build_shapes(alloc, rules, sym, &mut path, redexes.as_slice(), solve)
}
