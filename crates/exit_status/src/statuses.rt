ghost use Rattle.std.specs.Prelude.{◌≡◌, option_map};
ghost use Rattle.exit_status.specs.Statuses.{code, own_text};

/// The exit statuses of the program.
#[derive(Clone, Copy, PartialEq, Eq)]
pub enum Status {
    /// The command did its work. For a job: its commit published everything.
    Done,
    /// The command was refused. For a job: its commit ended in another way, for a reason of its
    /// own.
    Refused,
    /// The words are no command.
    Usage,
    /// Reading the input failed.
    ReadFault,
    /// Writing the output failed.
    WriteFault,
    /// The device that keeps the store failed.
    ShelfFault,
    /// The input is not a valid script.
    BadScript,
    /// The stored bytes are not a valid store.
    BadImage,
    /// A request of the operation that decides the job was lost, and its retries are exhausted.
    StoreFault,
    /// Memory ran out.
    NoMemory,
}

impl Status {
    /// Returns the number that the program exits with, 0 to 9.
    pub fn code(self) -> u8
        ensures { result ≡ code self }
    {
        match self {
            Status::Done => 0,
            Status::Refused => 1,
            Status::Usage => 2,
            Status::ReadFault => 3,
            Status::WriteFault => 4,
            Status::ShelfFault => 5,
            Status::BadScript => 6,
            Status::BadImage => 7,
            Status::StoreFault => 8,
            Status::NoMemory => 9,
        }
    }

    /// Returns the text of a status that always prints the same text, and None for the others.
    pub fn own_text(self) -> Option<&'static str>
        ensures { option_map (λ text. text.now) result ≡ own_text self }
    {
        match self {
            Status::Usage => Some("usage: s3a FOLDER COMMAND WORDS\n"),
            Status::ReadFault => Some("read fault\n"),
            Status::ShelfFault => Some("shelf fault\n"),
            Status::NoMemory => Some("no memory\n"),
            _ => None,
        }
    }
}
