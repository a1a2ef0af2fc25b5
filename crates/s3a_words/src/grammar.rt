//! Reads the words after the folder with clap.
ghost use Rattle.std.specs.Prelude.{◌≡◌, ◌↔◌, IfOk, IsErr, None, true};
ghost use Rattle.std.specs.List.{list_all};
ghost use Rattle.clap.specs.Words.{app_of, kind_of};
ghost use Rattle.clap.specs.Walk.{texts};
ghost use Rattle.s3a_words.specs.inner.Grammar.{grammar, Gives};
ghost use Rattle.s3a_words.specs.Words.{is_plain};

use clap::error::ErrorKind;
use clap::{Arg, ArgMatches, Command, Error};
use s3_types::{Text, let_go};
use std::alloc::{AllocError, Global};

/// The grammar of the words: the name of a command, and up to three operands.
fn grammar<'a>(alloc: Global) -> Result<Command<'a>, AllocError>
    ensures { IfOk result (λ command. app_of command ≡ grammar) }
{
    let name = Arg::new(alloc, "command").required(true);
    Command::new(alloc, "s3a")
        .no_binary_name(true)
        .disable_help_flag(true)
        .arg(name)?
        .arg(Arg::new(alloc, "first"))?
        .arg(Arg::new(alloc, "second"))?
        .arg(Arg::new(alloc, "third"))
}

/// The words as texts.
pub fn as_texts<'a>(alloc: Global, words: &'a [Text]) -> Result<Vec<&'a str>, AllocError>
    ensures { IfOk result (λ v. texts v.items ≡ words.now) }
{
    words.iter().map(|word| word.as_str()).collect(alloc)
}

/// No matches for any error of clap but `OutOfMemory`.
fn without_matches<T>(error: &Error) -> Result<Option<T>, AllocError>
    ensures none { IfOk result (λ o. o ≡ None) }
    ensures memory { IsErr result ↔ (kind_of error.now ≡ ErrorKind.OutOfMemory) }
{
    if error.kind() == ErrorKind::OutOfMemory {
        return Err(AllocError);
    }
    Ok(None)
}

/// Clap's matches for words of which none begins with `-`, or None if the words are no command.
pub fn matches_in<'a>(
    alloc: Global,
    words: &'a [&'a str],
) -> Result<Option<ArgMatches<'a>>, AllocError>
    ensures { list_all is_plain (texts words.now) ≡ true → IfOk result (Gives (texts words.now)) }
{
    match grammar(alloc)?.try_get_matches_from(words) {
        Ok(matches) => Ok(Some(matches)),
        Err(error) => {
            let none = without_matches(&error);
            let_go(error);
            none
        }
    }
}
