//! A file in memory.
ghost use Rattle.std.specs.Prelude.{◌≡◌, ◌≤◌, IfSome};
ghost use Rattle.rx_io.specs.MemoryFiles.{fail_in};

use rx_io::MemoryFiles;
use std::alloc::Global;
use test_lines::add_file;

/// Files in memory, of which one is `a.c` with this content.
pub fn one_file(
    alloc: Global,
    content: Vec<u8>,
    piece: usize,
    fail: Vec<u64>,
) -> Option<MemoryFiles>
    requires { 1 ≤ piece }
    ensures { IfSome result (λ files. fail_in files ≡ fail.items) }
{
    let mut held = Vec::new(alloc);
    add_file(alloc, &mut held, "a.c", content)?;
    Some(MemoryFiles::new(held, piece, fail))
}
