//! Functions and programs (ISO/IEC 9899:1999, 6.9.1 and 6.7.5.3), and their exact copies.
ghost use Rattle.std.specs.Prelude.{◌≡◌, ◌++◌, IfOk, OnOk};
ghost use Rattle.std.specs.List.{flat_map};
ghost use Rattle.c_ast.specs.Calls.{calls_in};

use crate::parts::extended;
use crate::stmt::{Stmt, copy_all, push_calls_of_all};
use rx_plain::{Items, NoMemory};
use std::alloc::Global;

/// A function with its body.
#[derive(Debug, Drop, PartialEq, Eq)]
pub struct Function {
    /// The number of the name's token.
    pub name: u32,
    /// The parameters in order, each by its name's token or its slot.
    pub params: Items<u32>,
    /// The statements of the body.
    pub body: Items<Stmt>,
}

/// A prototype: a function's name and how many parameters it has.
#[derive(Clone, Copy, Debug, PartialEq, Eq)]
pub struct Prototype {
    /// The number of the name's token.
    pub name: u32,
    /// How many parameters, and `None` where the parentheses are empty.
    pub params: Option<u32>,
}

/// A program as it was read: each name is the number of its token.
#[derive(Debug, Drop, PartialEq, Eq)]
pub struct Program {
    /// The functions in the order of the text.
    pub functions: Items<Function>,
    /// The prototypes in the order of the text.
    pub prototypes: Items<Prototype>,
}

/// A program whose variables are slots and whose calls name a place in the list of functions.
#[derive(Debug, Drop, PartialEq, Eq)]
pub struct Resolved {
    /// The functions in the order of the text.
    pub functions: Items<Function>,
}

impl Function {
    /// Adds the functions that the body calls to the end of `called`, in the order of its
    /// statements, each as often as it is called there, also where nothing leads; fails only when
    /// out of memory.
    #[tactic(auto, using(crate::proofs::CallEquations::calls_of_list))]
    pub fn push_calls(&self, called: &mut Items<u32>) -> Result<(), NoMemory>
        ensures { OnOk result (called.new ≡ called.old ++ flat_map calls_in self.now.body) }
    {
        push_calls_of_all(self.body.as_slice(), called)
    }

    /// A copy that equals `self`; fails only when out of memory.
    pub fn try_clone(&self, alloc: Global) -> Result<Function, NoMemory>
        ensures { IfOk result (λ f. f ≡ self.now) }
    {
        let params = Items::from_slice(alloc, self.params.as_slice())?;
        let body = copy_all(alloc, &self.body)?;
        Ok(Function {
            name: self.name,
            params,
            body,
        })
    }
}

impl Program {
    /// A copy that equals `self`; fails only when out of memory.
    pub fn try_clone(&self, alloc: Global) -> Result<Program, NoMemory>
        ensures { IfOk result (λ p. p ≡ self.now) }
    {
        let functions = copy_functions(alloc, &self.functions)?;
        let prototypes = Items::from_slice(alloc, self.prototypes.as_slice())?;
        Ok(Program {
            functions,
            prototypes,
        })
    }
}

impl Resolved {
    /// A copy that equals `self`; fails only when out of memory.
    pub fn try_clone(&self, alloc: Global) -> Result<Resolved, NoMemory>
        ensures { IfOk result (λ r. r ≡ self.now) }
    {
        let functions = copy_functions(alloc, &self.functions)?;
        Ok(Resolved { functions })
    }
}

// A copy of each function, in order.
fn copy_functions(alloc: Global, functions: &Items<Function>) -> Result<Items<Function>, NoMemory>
    ensures { IfOk result (λ copied. copied ≡ functions.now) }
{
    let mut copies = Items::new(alloc);
    for function in functions.as_slice() {
        copies = extended(copies, function.try_clone(alloc))?;
    }
    Ok(copies)
}
