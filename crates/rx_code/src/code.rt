//! Compiled code, as it is written down.
ghost use Rattle.std.specs.Prelude.{◌≡◌, ◌+◌, [], ◌∷◌, length, true, false, IfOk, IfErr, OnOk, OnErr};
ghost use Rattle.rx_code.specs.Pieces.{a_point, append_code, does, is_room, marks_entry, marks_head, no_code, opens, point};

use crate::action::{Action, Instruction};
use crate::point::{Opening, Point};
use rx_plain::Items;
use rx_poly::PolyEnd;
use std::alloc::{AllocError, Global};

/// How many symbols there may be.
const MOST_SYMBOLS: usize = 4096;

/// How many variables a symbol may have.
const MOST_VARIABLES: u32 = 128;

/// What programs are compiled to: the symbols in the order in which they are opened, and what is
/// done at them.
#[derive(Debug, Drop, PartialEq, Eq)]
pub struct Code {
    /// The symbols by their numbers.
    pub opened: Items<Opening>,
    /// What is done at them; in compiled code each symbol has one instruction.
    pub instructions: Items<Instruction>,
    /// The numbers of the symbols at which loops begin.
    pub heads: Items<u32>,
    /// The functions that are compiled, by their places in the program, each with its first symbol.
    pub entries: Items<(u32, u32)>,
}

impl Code {
    /// No code. Takes no memory until something is written down.
    pub fn new(alloc: Global) -> Code
        ensures { result ≡ no_code }
    {
        Code {
            opened: Items::new(alloc),
            instructions: Items::new(alloc),
            heads: Items::new(alloc),
            entries: Items::new(alloc),
        }
    }

    /// Opens the next symbol, a point or a frame with n variables. Large exactly where there are
    /// 4,096 symbols already, or the variables are more than 128. Where it fails nothing is opened.
    pub fn open(&mut self, width: u32, frame: bool) -> Result<Point, PolyEnd>
        ensures code { OnOk result (self.new ≡
            append_code self.old (opens (record { width = width; frame = frame } ∷ []))) }
        ensures point { IfOk result (λ p. p ≡ point (length self.old.opened) width) }
        ensures within { OnOk result (is_room (length self.old.opened) width ≡ true) }
        ensures large { IfErr result (λ e. e ≡ PolyEnd.Large →
            is_room (length self.old.opened) width ≡ false) }
        ensures kept { OnErr result (self.new ≡ self.old) }
    {
        let count = self.opened.len();
        if count >= MOST_SYMBOLS || width > MOST_VARIABLES {
            return Err(PolyEnd::Large);
        }
        self.opened.push(Opening { width, frame })?;
        Ok(Point {
            symbol: count as u32,
            width,
        })
    }

    /// Opens the next symbol, a point with one variable more than that many. Large exactly where
    /// `open` is, for that number.
    pub fn open_wider(&mut self, width: u32) -> Result<Point, PolyEnd>
        ensures code { OnOk result (self.new ≡
            append_code self.old (opens (a_point (width + 1) ∷ []))) }
        ensures point { IfOk result (λ p. p ≡ point (length self.old.opened) (width + 1)) }
        ensures within { OnOk result (is_room (length self.old.opened) (width + 1) ≡ true) }
        ensures large { IfErr result (λ e. e ≡ PolyEnd.Large →
            is_room (length self.old.opened) (width + 1) ≡ false) }
        ensures kept { OnErr result (self.new ≡ self.old) }
    {
        if width >= MOST_VARIABLES {
            return Err(PolyEnd::Large);
        }
        self.open(width + 1, false)
    }

    /// Writes down what is done at a point or a frame; where there is no memory nothing is written.
    pub fn emit(&mut self, at: Point, action: Action) -> Result<(), AllocError>
        ensures code { OnOk result (self.new ≡ append_code self.old (does at action)) }
        ensures kept { OnErr result (self.new ≡ self.old) }
    {
        self.instructions.push(Instruction { at, action })
    }

    /// Marks the symbol of that number as the head of a loop; where there is no memory it isn't.
    pub fn mark_head(&mut self, symbol: u32) -> Result<(), AllocError>
        ensures code { OnOk result (self.new ≡ append_code self.old (marks_head symbol)) }
        ensures kept { OnErr result (self.new ≡ self.old) }
    {
        self.heads.push(symbol)
    }

    /// Marks the symbol of that number as the entry of the function at a place in the program;
    /// where there is no memory it isn't.
    pub fn mark_entry(&mut self, place: u32, symbol: u32) -> Result<(), AllocError>
        ensures code { OnOk result (self.new ≡ append_code self.old (marks_entry place symbol)) }
        ensures kept { OnErr result (self.new ≡ self.old) }
    {
        self.entries.push((place, symbol))
    }
}
