//! An order of two kinds of lines: items, as many as one likes, and a line that ends the text.
ghost use Rattle.std.specs.Prelude.{[], ◌∷◌, codes};
ghost use Rattle.rx_lines.specs.Example.{entry_text, items_then_last};
ghost use Rattle.rx_lines.specs.Example.{Item, Last};
ghost use Rattle.rx_lines.specs.Example.{Closed};
ghost use Rattle.rx_lines.specs.Orders.{IsFirstBad, IsLineOrder, LeadsTo};

use crate::laws::LineOrder;

/// Lines `item`, as many as one likes, and then the line `last`.
#[derive(Drop)]
pub struct ItemsThenLast;

impl LineOrder for ItemsThenLast {
    ghost use Rattle.rx_lines.specs.Example as example;

    ghost Line = { example.Entry };

    ghost Place = { example.Stage };

    ghost order = { example.items_then_last };
}

/// What the laws ask of an order holds of this one. Two items and the last line are a whole text of
/// it; of two items alone the third line is missing, and an item behind the last line is bad. It
/// does nothing: its contract is the law.
pub fn the_premises_can_be_met()
    ensures met { IsLineOrder items_then_last }
    ensures whole { LeadsTo items_then_last
        (entry_text Item ∷ entry_text Item ∷ entry_text Last ∷ []) Closed }
    ensures missing { IsFirstBad items_then_last (codes "item\nitem\n") 3 }
    ensures bad { IsFirstBad items_then_last (codes "item\nlast\nitem\n") 3 }
{}
