use anyhow::Result;
use path_keys::S3Path;
use s3_types::{Text, let_go};
use s3a_words::{Command, WordFault, read_words};
use std::alloc::{AllocError, Global};
use std::io;

/// The words of a row, which are separated by `|`. An empty row has none.
fn words_in(alloc: Global, line: &str) -> Result<Vec<Text>, AllocError> {
    let mut words = Vec::new(alloc);
    if line.is_empty() {
        return Ok(words);
    }
    for word in line.split('|') {
        words.push(Text::copied(alloc, word)?)?;
    }
    Ok(words)
}

fn show_on_path(rt: &impl Print, name: &str, path: &S3Path) -> io::Result<()> {
    let bucket = path.bucket().as_text().as_str();
    println!(rt; "{name} {bucket} {}", path.key().as_str())
}

fn show_read(rt: &impl Print, command: &Command) -> io::Result<()> {
    match command {
        Command::Init { minimum: None } => println!(rt; "init"),
        Command::Init {
            minimum: Some(minimum),
        } => println!(rt; "init {minimum}"),
        Command::Mb { name } => println!(rt; "mb {}", name.as_str()),
        Command::Ls { path } => show_on_path(rt, "ls", path),
        Command::Stat { path } => show_on_path(rt, "stat", path),
        Command::Cat { path } => show_on_path(rt, "cat", path),
        Command::Put { path } => show_on_path(rt, "put", path),
        Command::PutForce { path } => show_on_path(rt, "put-force", path),
        Command::PutDrop { path } => show_on_path(rt, "put-drop", path),
        Command::Mkdir { path } => show_on_path(rt, "mkdir", path),
        Command::Rm { path } => show_on_path(rt, "rm", path),
        Command::Rmr { path } => show_on_path(rt, "rmr", path),
        Command::Uploads { path } => show_on_path(rt, "uploads", path),
        Command::AbortUploads { path } => show_on_path(rt, "abort-uploads", path),
        Command::Markers { path } => show_on_path(rt, "markers", path),
        Command::CleanMarkers { path } => show_on_path(rt, "clean-markers", path),
        Command::FillMarkers { path } => show_on_path(rt, "fill-markers", path),
        Command::Job => println!(rt; "job"),
        Command::Twins => println!(rt; "twins"),
        _ => println!(rt; "another command"),
    }
}

/// Shows the command that a row's words name.
pub fn show_command(rt: &impl Print, alloc: Global, line: &str) -> Result<()> {
    let words = words_in(alloc, line)?;
    let command = match read_words(alloc, words.as_slice()) {
        Ok(command) => command,
        Err(WordFault::Usage) => return Ok(println!(rt; "none")?),
        Err(WordFault::NoMemory) => return Err(AllocError.into()),
    };
    let shown = show_read(rt, &command);
    let_go(command);
    Ok(shown?)
}
