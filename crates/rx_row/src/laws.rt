//! A law of lists of rows.
ghost use Rattle.std.specs.Prelude.{◌↔◌, ℕ, ℤ, List};
ghost use Rattle.rx_row.specs.Holds.{AllHold, RowHolds};
ghost use Rattle.rx_row.specs.Membership.{pushed};
ghost use Rattle.rx_row.specs.declared.row.Row.{Row};

/// A list to which a row is added holds exactly where the list and the row do.
#[tactic(auto, using(crate::proofs::Membership::all_hold_pushed))]
pub fn a_pushed_row_is_to_hold_too()
    ensures { (a : ℕ → ℤ) (rows : List Row) (row : Row) →
        AllHold a (pushed rows row) ↔ (AllHold a rows × RowHolds a row) }
{}
