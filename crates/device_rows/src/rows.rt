use crate::given::{Given, file_in, image_of_keys, input_in, words_in};
use crate::known::{Known, known_of};
use crate::play::{Played, Wrong, play};
use crate::told::put_report;
use crate::turns::{Turn, show_turns};
use anyhow::{Context, Result, bail};
use s3_types::{Bytes, let_go, put};
use sha2::{Digest, Sha256};
use std::alloc::Global;

/// The most bytes of a file that is shown whole.
const MOST_SHOWN: usize = 1200;

/// What the next run is given, and what is known of the last one.
#[derive(Drop)]
pub struct Rows {
    given: Given,
    known: Known,
}

fn show_text(rt: &impl Print, text: &str) -> Result<()> {
    for line in text.split('\n') {
        if !line.is_empty() {
            println!(rt; "  {line}")?;
        }
    }
    Ok(())
}

/// Shows a file's bytes, or for a long file their number and digest.
fn show_file(rt: &impl Print, alloc: Global, file: &Option<Bytes>) -> Result<()> {
    let Some(file) = file else {
        return Ok(println!(rt; "no file")?);
    };
    let bytes = file.as_slice();
    if bytes.len() > MOST_SHOWN {
        let digest = hex::encode(alloc, &Sha256::digest(bytes))?;
        println!(rt; "file of {} bytes, sha256 {digest}", bytes.len())?;
    } else {
        println!(rt; "file {}", hex::encode(alloc, bytes)?)?;
    }
    Ok(())
}

fn show_played(rt: &impl Print, alloc: Global, known: &Known, played: &Played) -> Result<()> {
    let mut line = String::new(alloc);
    put_report(&mut line, &played.report)?;
    let calls = played.shelf.disk().calls_made();
    println!(rt; "{line}, calls {calls}")?;
    show_text(rt, str::from_utf8(known.text.as_slice())?)?;
    show_file(rt, alloc, &known.file)
}

impl Rows {
    /// The rows before the first line: nothing is given.
    pub fn new(alloc: Global) -> Rows {
        Rows {
            given: Given::new(alloc),
            known: Known::new(alloc),
        }
    }

    fn take_words(&mut self, line: &str) -> Result<()> {
        let words = words_in(self.given.alloc, line)?;
        put(&mut self.given.words, words);
        Ok(())
    }

    fn take_input(&mut self, text: &str) -> Result<()> {
        let input = input_in(self.given.alloc, text)?;
        put(&mut self.given.input, input);
        Ok(())
    }

    fn take_file(&mut self, digits: &str) -> Result<()> {
        let file = file_in(self.given.alloc, digits)?;
        put(&mut self.given.file, file);
        Ok(())
    }

    /// `COUNT FRONT`
    fn take_keys(&mut self, words: &str) -> Result<()> {
        let (count, front) = words.split_once(' ').context("a count and a front")?;
        let image = image_of_keys(self.given.alloc, count.parse::<u32>()?, front)?;
        put(&mut self.given.file, Some(image));
        Ok(())
    }

    fn go_on(&mut self) -> Result<()> {
        let file = self.known.file.clone()?;
        put(&mut self.given.file, file);
        Ok(())
    }

    /// Runs the command over devices that do not fail.
    fn run(&mut self, rt: &impl Print) -> Result<()> {
        let alloc = self.given.alloc;
        let played = play(&self.given, Wrong::Nothing)?;
        let known = known_of(alloc, &self.given.file, &played);
        match known {
            Ok(known) => put(&mut self.known, known),
            Err(error) => {
                let_go(played);
                return Err(error.into());
            }
        }
        let shown = show_played(rt, alloc, &self.known, &played);
        let_go(played);
        shown
    }

    fn turn(&self, rt: &impl Print, verb: &str, words: &str) -> Result<()> {
        let turn = turn_named(verb)?;
        show_turns(rt, &self.given, &self.known, turn, words.parse::<u64>()?)
    }
}

fn turn_named(verb: &str) -> Result<Turn> {
    match verb {
        "source" => Ok(Turn::Source),
        "disk" => Ok(Turn::Disk),
        "sink" => Ok(Turn::Sink),
        "stops" => Ok(Turn::Stop),
        _ => bail!("no such row"),
    }
}

fn show_row(rt: &impl Print, rows: &mut Rows, verb: &str, words: &str) -> Result<()> {
    match verb {
        "words" => rows.take_words(words),
        "input" => rows.take_input(words),
        "file" => rows.take_file(words),
        "keys" => rows.take_keys(words),
        "go" => rows.go_on(),
        "run" => rows.run(rt),
        _ => rows.turn(rt, verb, words),
    }
}

/// Shows a line and its answer.
pub fn show_line(rt: &impl Print, rows: &mut Rows, line: &str) -> Result<()> {
    println!(rt; "{line}")?;
    let (verb, words) = line.split_once(' ').unwrap_or((line, ""));
    show_row(rt, rows, verb, words)
}
