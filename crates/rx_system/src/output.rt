//! The standard output of the system. Nothing is said of what was put.
ghost use Rattle.std.specs.Prelude.{None};

use rx_io::{Failed, Sink};

/// The system's standard output. Faults are counted, in a number that stays at its greatest
/// value; that it takes nothing of a piece that isn't empty is one.
#[derive(Drop)]
pub struct SystemOutput<'a, P: Print> {
    printer: &'a P,
    faults: u64,
}

impl<'a, P: Print> SystemOutput<'a, P> {
    /// The output to which the runtime prints.
    pub fn new(printer: &'a P) -> Self {
        SystemOutput { printer, faults: 0 }
    }
}

impl<P: Print> Sink for SystemOutput<'_, P> {
    ghost contents = { λ _. None };

    ghost faults = { λ out. out.faults };

    ghost reaches = { λ _ _. Unit {0} };

    ghost puts = { λ _ _ _ _. Unit {0} };

    ghost reaches_same = { λ _. tt };

    ghost reaches_on = { λ _ _ _ _ _. tt };

    fn put(&mut self, piece: &[u8]) -> Result<usize, Failed> {
        match self.printer.write_some(piece) {
            Ok(count) => {
                if count == 0 && !piece.is_empty() {
                    self.faults = self.faults.saturating_add(1);
                }
                Ok(count)
            }
            Err(_) => {
                self.faults = self.faults.saturating_add(1);
                Err(Failed)
            }
        }
    }
}

#[cfg(test)]
mod tests {
    use super::*;
    use std::io::{self, ErrorKind};

    // An output that takes three bytes of each piece, or none where it is closed.
    struct Narrow {
        is_closed: bool,
    }

    impl Print for Narrow {
        fn print<D: std::fmt::Display + Drop>(&self, _value: D) -> io::Result<()> {
            Ok(())
        }

        fn println<D: std::fmt::Display + Drop>(&self, _value: D) -> io::Result<()> {
            Ok(())
        }

        fn write_all(&self, _bytes: &[u8]) -> io::Result<()> {
            Ok(())
        }

        fn write_some(&self, bytes: &[u8]) -> io::Result<usize> {
            if self.is_closed {
                return Err(io::Error::from(ErrorKind::BrokenPipe));
            }
            Ok(bytes.len().min(3))
        }
    }

    #[test]
    fn a_closed_output_is_a_fault(rt: HostRuntime) {
        let mut out = SystemOutput::new(&Narrow { is_closed: false });
        assert_eq!(rt; out.put(b"abcde"), Ok(3));
        assert_eq!(rt; out.put(b""), Ok(0));
        assert_eq!(rt; out.faults, 0);
        let mut closed = SystemOutput::new(&Narrow { is_closed: true });
        assert_eq!(rt; closed.put(b"abcde"), Err(Failed));
        assert_eq!(rt; closed.faults, 1);
    }
}
