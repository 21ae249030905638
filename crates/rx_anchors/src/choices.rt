//! The choices of one candidate for each anchor, by number, in lexicographic order.
ghost use Rattle.std.specs.Prelude.{◌≡◌, IfOk, slice_get};
ghost use Rattle.std.specs.Option.{option_map};
ghost use Rattle.rx_anchors.specs.Choices.{lists_in, products};
ghost use Rattle.rx_anchors.specs.Values.{polys_at};

use rx_plain::NoMemory;
use rx_poly::Poly;
use std::alloc::Global;

/// The choice with that number, counted from 0; None where there are no more than that.
pub fn choice_at<'a>(
    alloc: Global,
    lists: &'a [Vec<Poly>],
    number: usize,
) -> Result<Option<Vec<&'a Poly>>, NoMemory>
    ensures { IfOk result (λ o. option_map (λ v. polys_at v.items) o ≡
        slice_get (products (lists_in lists.now)) number) }
{
    let mut choice = Vec::with_capacity(alloc, lists.len())?;
    let mut left = number;
    let mut rest = lists;
    while let Some((last, before)) = rest.split_last() {
        let count = last.len();
        if count == 0 {
            return Ok(None);
        }
        choice.push(&last[left % count])?;
        left /= count;
        rest = before;
    }
    if left > 0 {
        return Ok(None);
    }
    choice.reverse();
    Ok(Some(choice))
}
