//! How a run ends.
ghost use Rattle.std.specs.Prelude.{◌≡◌};

/// How a run ends, as the program's exit status says it.
#[derive(Clone, Copy, Debug, PartialEq, Eq)]
pub enum Status {
    /// What the words ask about holds: the two functions compute the same, the equation of the
    /// rule text is proved, or the rules of the two functions have the text that is written.
    Equivalent,
    /// Whether it holds was not found out.
    Unknown,
    /// The input was refused; the report says why.
    Refused,
    /// The words ask for nothing that the program does.
    Usage,
    /// A file could not be read.
    ReadFault,
    /// The report could not be written whole.
    WriteFault,
    /// There was no memory. Nothing was reported.
    NoMemory,
    /// A number or a term passed the limits.
    Large,
    /// The two functions differ at some integers.
    Different,
}

impl Status {
    ghost use Rattle.rx_report.specs.Ends.{code_of};

    /// The exit status: 0 to 8, in the order of the variants.
    pub fn code(&self) -> u8
        ensures { result ≡ code_of self.now }
    {
        *self as u8
    }
}
