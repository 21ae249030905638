//! The code of functions, as the table of rx_code says.
ghost use Rattle.std.specs.Prelude.{◌≡◌, length, slice_get};
ghost use Rattle.rx_plain.specs.Formed.{Forms};
ghost use Rattle.rx_code.specs.Programs.{function_code, place_code, places_code};
ghost use Rattle.rx_exprs.specs.Compiles.{CompilesCode};
ghost use Rattle.rx_stmts.specs.Statements.{CompilesPoint};

use crate::places::Places;
use crate::stmts::{MOST_VARIABLES, list};
use c_ast::{Function, Integers};
use rx_code::{Action, Code, Point};
use rx_exprs::Setting;
use rx_poly::{Poly, PolyEnd};
use std::alloc::Global;

/// Opens the entry of a function, over n parameters. Large exactly where there is no room.
fn open_entry(code: &mut Code, parameters: usize) -> Result<Point, PolyEnd>
    ensures point { CompilesPoint code.old code.new result parameters }
{
    if parameters > MOST_VARIABLES as usize {
        return Err(PolyEnd::Large);
    }
    code.open(parameters as u32, false)
}

/// The function at a place in the program: its entry, its end, and its body from the one to the
/// other. A `break` or `continue` outside loops, which no well-formed function has, leads to the
/// end.
pub fn function(setting: Setting, code: &mut Code, place: u32, f: &Function) -> Result<(), PolyEnd>
    ensures code { CompilesCode code.old code.new result
        (function_code setting.integers place f.now (length code.old.opened)) }
{
    let entry = open_entry(code, f.params.len())?;
    let end = code.open(0, false)?;
    code.mark_entry(place, entry.symbol)?;
    code.emit(end, Action::Return(Poly::constant(setting.alloc, 0)?))?;
    let body = Places {
        at: entry,
        to: end,
        break_to: end,
        continue_to: end,
    };
    list(setting, code, f.body.as_slice(), body)
}

/// The function at a place; nothing where there is none.
fn function_at(
    setting: Setting,
    code: &mut Code,
    functions: &[Function],
    place: u32,
) -> Result<(), PolyEnd>
    ensures code { CompilesCode code.old code.new result
        (place_code setting.integers place (slice_get functions.now place)
        (length code.old.opened)) }
{
    match functions.get(place as usize) {
        Some(f) => function(setting, code, place, f),
        None => Ok(()),
    }
}

/// The code of the functions at these places, in order, by the kind of integers. Large exactly
/// where something that is formed or opened for them passes the limits.
pub fn code_of(
    alloc: Global,
    integers: Integers,
    functions: &[Function],
    places: &[u32],
) -> Result<Code, PolyEnd>
    ensures forms { Forms PolyEnd.Large result (places_code integers functions.now places.now 0) }
{
    let setting = Setting { alloc, integers };
    let mut code = Code::new(alloc);
    for place in places {
        function_at(setting, &mut code, functions, *place)?;
    }
    Ok(code)
}
