//! A law of packed states.
ghost use Rattle.std.specs.Prelude.{List};
ghost use Rattle.rx_bank.specs.Numbers.{KeepsNumbers};
ghost use Rattle.rx_bank.specs.Packing.{StandsFor};
ghost use Rattle.rx_bank.specs.declared.packed.Packed.{Packed};
ghost use Rattle.rx_inference.specs.States.{State};
ghost use Rattle.rx_poly.specs.declared.body.Body.{Body};

/// A packed state represents its state in each list of polynomials that keeps the numbers, such as
/// the bank after any calls.
pub fn packed_states_stand_where_numbers_are_kept()
    ensures { (old new : List Body) (packed : Packed) (state : State) →
        KeepsNumbers old new → StandsFor old packed state → StandsFor new packed state }
{}
