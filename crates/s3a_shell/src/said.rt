ghost use Rattle.std.specs.Prelude.{◌≡◌, IfOk, option_map, string_bytes};
ghost use Rattle.s3a_shell.specs.Texts.{refused_line, fine, refusing, refused, said, bytes_alone, nothing};

use fs_tree::FsRefusal;
use s3_types::Bytes;
use std::alloc::{AllocError, Global};

/// What a command says: its text, and whether it was refused.
#[derive(Drop)]
pub struct Said {
    pub refused: bool,
    pub text: Bytes,
}

/// What a command that is not refused says. Takes no memory.
pub fn fine(text: Bytes) -> Said
    ensures { result ≡ fine text }
{
    Said {
        refused: false,
        text,
    }
}

fn refused_line(alloc: Global, word: &str, kept: Option<&str>) -> Result<String, AllocError>
    ensures { IfOk result (λ line. string_bytes line ≡ refused_line word.now (option_map (λ k. k.now) kept.entry)) }
{
    match kept {
        None => format!(in alloc; "refused {word}\n"),
        Some(value) => format!(in alloc; "refused {word} {value}\n"),
    }
}

/// A refusal with its word and, for some words, the value that it names.
pub fn refusing(alloc: Global, word: &str, kept: Option<&str>) -> Result<Said, AllocError>
    ensures { IfOk result (λ what. what ≡ refusing word.now (option_map (λ k. k.now) kept.entry)) }
{
    let line = refused_line(alloc, word, kept)?;
    Ok(Said {
        refused: true,
        text: Bytes::new(alloc, line.into_bytes())?,
    })
}

/// What a command says if its operation is refused.
pub fn refused(alloc: Global, refusal: &FsRefusal) -> Result<Said, AllocError>
    ensures { IfOk result (λ what. what ≡ refused refusal.now) }
{
    match refusal {
        FsRefusal::NotFound => refusing(alloc, "not-found", None),
        FsRefusal::AlreadyExists => refusing(alloc, "already-exists", None),
        FsRefusal::IsDirectory => refusing(alloc, "is-directory", None),
        FsRefusal::NotDirectory(key) => refusing(alloc, "not-directory", Some(key.as_str())),
        FsRefusal::NotEmpty => refusing(alloc, "not-empty", None),
        FsRefusal::IsRoot => refusing(alloc, "is-root", None),
        FsRefusal::NoSuchBucket => refusing(alloc, "no-such-bucket", None),
    }
}

/// What an operation that returns bytes says: those bytes, or its refusal.
pub fn bytes_said(alloc: Global, answer: Result<Bytes, FsRefusal>) -> Result<Said, AllocError>
    ensures { IfOk result (λ what. what ≡ said bytes_alone answer) }
{
    match answer {
        Ok(bytes) => Ok(fine(bytes)),
        Err(refusal) => refused(alloc, &refusal),
    }
}

/// What an operation that returns nothing says: nothing, or its refusal.
pub fn nothing_said(alloc: Global, answer: Result<(), FsRefusal>) -> Result<Said, AllocError>
    ensures { IfOk result (λ what. what ≡ said nothing answer) }
{
    match answer {
        Ok(()) => Ok(fine(Bytes::empty(alloc)?)),
        Err(refusal) => refused(alloc, &refusal),
    }
}
