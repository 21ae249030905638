//! The files of the system. Nothing is said of their contents.
ghost use Rattle.std.specs.Prelude.{None};

use rx_io::{Failed, Files};
use std::io::Read;
use std::{fs, rt};

/// The system's files. Faults are counted, in a number that stays at its greatest value.
#[derive(Drop)]
pub struct SystemFiles<'a, R: rt::Files> {
    runtime: &'a R,
    opened: Option<R::File>,
    faults: u64,
}

impl<'a, R: rt::Files> SystemFiles<'a, R> {
    /// The files that the runtime reaches, none of them open.
    pub fn new(runtime: &'a R) -> Self {
        SystemFiles {
            runtime,
            opened: None,
            faults: 0,
        }
    }
}

impl<R: rt::Files> Files for SystemFiles<'_, R> {
    ghost held = { λ _. None };

    ghost left = { λ _. None };

    ghost faults = { λ files. files.faults };

    ghost reaches = { λ _ _. Unit {0} };

    ghost reaches_same = { λ _. tt };

    ghost reaches_on = { λ _ _ _ _ _. tt };

    fn open(&mut self, name: &str) -> Result<(), Failed> {
        match fs::open(self.runtime, name) {
            Ok(file) => {
                self.opened = Some(file);
                Ok(())
            }
            Err(_) => {
                self.faults = self.faults.saturating_add(1);
                Err(Failed)
            }
        }
    }

    fn take(&mut self, into: &mut [u8]) -> Result<usize, Failed> {
        let Some(file) = &mut self.opened else {
            return Ok(0);
        };
        match file.read(into) {
            Ok(count) => Ok(count),
            Err(_) => {
                self.faults = self.faults.saturating_add(1);
                Err(Failed)
            }
        }
    }
}

#[cfg(test)]
mod tests {
    use super::*;
    use std::test::Fail;

    #[test]
    fn a_file_is_read_to_its_end(rt: HostRuntime) -> Result<(), Fail> {
        fs::write(&rt, "adapter.txt", "abc")?;
        let mut files = SystemFiles::new(&rt);
        let mut piece = [0u8; 2];
        assert_eq!(rt; files.take(&mut piece), Ok(0));
        assert_eq!(rt; files.open("adapter.txt"), Ok(()));
        assert_eq!(rt; files.take(&mut piece), Ok(2));
        assert_eq!(rt; piece, [b'a', b'b']);
        assert_eq!(rt; files.open("no-such-file.txt"), Err(Failed));
        assert_eq!(rt; files.faults, 1);
        assert_eq!(rt; files.take(&mut piece), Ok(1));
        assert_eq!(rt; piece[0], b'c');
        assert_eq!(rt; files.take(&mut piece), Ok(0));
        assert_eq!(rt; files.faults, 1);
        fs::remove_file(&rt, "adapter.txt")?;
        Ok(())
    }
}
