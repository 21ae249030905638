//! What the reader of programs found.
use c_ast::Program;

/// The program of a list of tokens, or the place of the first function or prototype that can't be
/// read.
#[derive(Drop)]
pub enum ReadProgram {
    Spelled(Program),
    Stopped(usize),
}
