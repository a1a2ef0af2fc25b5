ghost use Rattle.std.specs.Prelude.{◌≡◌};
ghost use Rattle.s3a_words.specs.Kinds.{kind_of};

use path_keys::S3Path;
use s3_types::Text;

/// A command of the program, as its words name it.
#[derive(Drop)]
pub enum Command {
    /// Makes an empty store. `minimum`, 1 to 5,242,880, is the least size of a part in bytes, if it
    /// is given.
    Init { minimum: Option<u64> },
    /// Makes a bucket.
    Mb { name: Text },
    /// Lists a directory, or a file by itself.
    Ls { path: S3Path },
    /// Says whether a path is a file or a directory.
    Stat { path: S3Path },
    /// Writes the bytes of a file.
    Cat { path: S3Path },
    /// Makes a file of the input, if none exists at the path.
    Put { path: S3Path },
    /// Makes a file of the input, and overwrites one that exists.
    PutForce { path: S3Path },
    /// Makes a file of the input, if none exists at the path, and deletes the markers of the
    /// directories above it.
    PutDrop { path: S3Path },
    /// Makes a directory.
    Mkdir { path: S3Path },
    /// Deletes a file or an empty directory.
    Rm { path: S3Path },
    /// Deletes a file, or a directory with all that is below it.
    Rmr { path: S3Path },
    /// Renames a file, or a directory with all that is below it, to another path.
    Mv { from: S3Path, to: S3Path },
    /// Copies all that is below a directory to another path.
    Cp { from: S3Path, to: S3Path },
    /// Lists the live uploads below a path.
    Uploads { path: S3Path },
    /// Aborts the live uploads below a path.
    AbortUploads { path: S3Path },
    /// Lists the markers at a path and below it.
    Markers { path: S3Path },
    /// Deletes the markers at a path and below it whose directories exist without them.
    CleanMarkers { path: S3Path },
    /// Puts the markers that directories at a path and below it lack.
    FillMarkers { path: S3Path },
    /// Runs a job whose script is read from the input.
    Job,
    /// Makes a script from a seed, with 1 to 200 tasks of 1 to 50 files each, runs it, and sums the
    /// job up in a line.
    Gen { seed: u32, tasks: u32, files: u32 },
    /// Runs two jobs at one destination. The input has their scripts and after them the order of
    /// turns.
    Twins,
}

/// Why the words could not be read as a command.
#[derive(Clone, Copy)]
pub enum WordFault {
    /// The words are no command.
    Usage,
    NoMemory,
}

/// What a command does with a store and with the input.
#[derive(Clone, Copy)]
pub enum CommandKind {
    /// Makes a store.
    Begins,
    /// Changes nothing in a store.
    Looks,
    /// Changes a store.
    Changes,
    /// Makes a file of the input.
    Puts,
    /// Ends uploads.
    Aborts,
    /// Runs one job or two.
    Plays,
}

impl Command {
    /// What the command does with a store and with the input, by the table `row_of`.
    pub fn kind(&self) -> CommandKind
        ensures { result ≡ kind_of self.now }
    {
        match self {
            Command::Init { .. } => CommandKind::Begins,
            Command::Mb { .. } => CommandKind::Changes,
            Command::Ls { .. } => CommandKind::Looks,
            Command::Stat { .. } => CommandKind::Looks,
            Command::Cat { .. } => CommandKind::Looks,
            Command::Put { .. } => CommandKind::Puts,
            Command::PutForce { .. } => CommandKind::Puts,
            Command::PutDrop { .. } => CommandKind::Puts,
            Command::Mkdir { .. } => CommandKind::Changes,
            Command::Rm { .. } => CommandKind::Changes,
            Command::Rmr { .. } => CommandKind::Changes,
            Command::Mv { .. } => CommandKind::Changes,
            Command::Cp { .. } => CommandKind::Changes,
            Command::Uploads { .. } => CommandKind::Looks,
            Command::AbortUploads { .. } => CommandKind::Aborts,
            Command::Markers { .. } => CommandKind::Looks,
            Command::CleanMarkers { .. } => CommandKind::Changes,
            Command::FillMarkers { .. } => CommandKind::Changes,
            Command::Job => CommandKind::Plays,
            Command::Gen { .. } => CommandKind::Plays,
            Command::Twins => CommandKind::Plays,
        }
    }
}
