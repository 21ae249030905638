//! Ranks with the hypotheses of a state.
ghost use Rattle.std.specs.Prelude.{◌≡◌, All, IfOk};
ghost use Rattle.rx_pairs.specs.Inside.{listing};
ghost use Rattle.rx_pairs.specs.Pairs.{HasRoot, SidesFit};
ghost use Rattle.rx_solve.specs.Answers.{IsSolver};
ghost use Rattle.rx_wider.specs.Nodes.{has_ranks, is_fit};

use crate::opening::Setting;
use rx_cert::Cert;
use rx_fm::FmEnd;
use rx_has_ranks::{RankMemo, has_ranks_with};
use rx_plain::NoMemory;
use rx_row::Constraint;
use rx_steps::State;

/// Whether ranks are found with the hypotheses of the state.
pub(crate) fn is_ranked<S: FnMut(&Constraint) -> Result<Option<Cert>, FmEnd>>(
    setting: &Setting<'_>,
    state: &State,
    memo: &mut RankMemo,
    solve: &mut S,
) -> Result<bool, NoMemory>
    requires pairs { setting.now.pairs.now ≡
        listing setting.now.rules.now setting.now.rules.now.rules }
    requires roots { All HasRoot state.now.hypotheses }
    requires fits { All (SidesFit setting.now.rules.now) state.now.hypotheses }
    requires solver { IsSolver S.FnMut solve.old }
    ensures solver { IsSolver S.FnMut solve.new }
    ensures found { IfOk result (λ found. found ≡
        has_ranks setting.now.kind setting.now.rules.now state.now.hypotheses) }
{
    match has_ranks_with(
        setting.alloc,
        setting.kind,
        setting.rules,
        setting.pairs,
        state.hypotheses(),
        memo,
        solve,
    ) {
        Ok(found) => Ok(found),
        Err(FmEnd::Large) => Ok(false),
        Err(FmEnd::NoMemory) => Err(NoMemory),
    }
}

/// Whether the state may be gone on with: where a hypothesis was kept, ranks are to be found with it.
pub(crate) fn is_fit<S: FnMut(&Constraint) -> Result<Option<Cert>, FmEnd>>(
    setting: &Setting<'_>,
    keeps: bool,
    state: &State,
    memo: &mut RankMemo,
    solve: &mut S,
) -> Result<bool, NoMemory>
    requires pairs { setting.now.pairs.now ≡
        listing setting.now.rules.now setting.now.rules.now.rules }
    requires roots { All HasRoot state.now.hypotheses }
    requires fits { All (SidesFit setting.now.rules.now) state.now.hypotheses }
    requires solver { IsSolver S.FnMut solve.old }
    ensures solver { IsSolver S.FnMut solve.new }
    ensures fit { IfOk result (λ fit. fit ≡
        is_fit setting.now.kind setting.now.rules.now keeps state.now.hypotheses) }
{
    if keeps {
        is_ranked(setting, state, memo, solve)
    } else {
        Ok(true)
    }
}
