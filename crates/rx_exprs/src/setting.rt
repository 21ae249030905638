//! What is the same for all code of a program.
use c_ast::Integers;
use std::alloc::Global;

/// What is the same for all code of a program.
#[derive(Clone, Copy)]
pub struct Setting {
    /// The allocator.
    pub alloc: Global,
    /// The kind of integers.
    pub integers: Integers,
}
