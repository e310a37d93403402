ghost use Rattle.std.specs.Prelude.{◌≡◌};
ghost use Rattle.brpc_top.specs.Answers.{number_of};

/// What the program ends with. The numbers are this project's own choice.
#[derive(Clone, Copy, Debug, PartialEq, Eq)]
pub enum Status {
    /// The script was read to its end and all was written.
    Done = 0,
    /// The words are none that are accepted.
    BadWords = 2,
    /// The source failed.
    ReadFault = 3,
    /// The sink failed.
    WriteFault = 4,
    /// The script has a bad line.
    Refused = 5,
    /// Memory ran out.
    NoMemory = 9,
}

impl Status {
    /// The status that the program ends with.
    pub fn number(self) -> u8
        ensures { result ≡ number_of self }
    {
        self as u8
    }
}
