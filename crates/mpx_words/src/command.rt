//! Commands, and the words that mean them.
ghost use Rattle.std.specs.Prelude.{◌≡◌, ◌≤◌, ℕ, List, map, string_bytes, length, MatchOption, ◌∷◌, [], codes};
ghost use Rattle.mpx_words.specs.Commands.{Run, Dis, Gen, Make, Link, Means, MeanNothing, Fits, command_of};

use crate::making::{Making, making_of};
use crate::options::{Settings, exec_words, number};
use crate::word::{are_objects, is_file, is_source};

/// A command with its options and files.
#[derive(Clone, Copy, Debug, PartialEq, Eq)]
pub enum Command<'a> {
    /// Compiles a C source and runs it.
    Run(&'a str),
    /// Runs an image.
    Exec(Settings, &'a str),
    /// Puts the text of the code of an object or image.
    Dis(&'a str),
    /// Puts the generated program of this size, 1 to 200.
    Gen(u32),
    /// Writes to a file, the first, what is made of the other.
    Make(Making, &'a str, &'a str),
    /// Writes to a file the image of the objects in others.
    Link(&'a str, &'a [String]),
}

/// The word behind a command's name, if the words are these two.
fn behind<'a>(words: &'a [String], name: &str) -> Option<&'a str>
    ensures { MatchOption result ((word : List ℕ) → map string_bytes words.now ≡ name.now ∷ word ∷ [] → ⊥) (λ word. map string_bytes words.now ≡ name.now ∷ word.now ∷ []) }
{
    if words.len() != 2 {
        return None;
    }
    let word = words[1].as_str();
    if words[0].as_str() == name {
        Some(word)
    } else {
        None
    }
}

fn run_words(words: &[String]) -> Option<&str>
    ensures { MatchOption result ((file : List ℕ) → Means (map string_bytes words.now) (Run file) → ⊥) (λ file. Means (map string_bytes words.now) (Run file.now)) }
{
    match behind(words, "run") {
        Some(file) if is_source(file) => Some(file),
        _ => None,
    }
}

fn dis_words(words: &[String]) -> Option<&str>
    ensures { MatchOption result ((file : List ℕ) → Means (map string_bytes words.now) (Dis file) → ⊥) (λ file. Means (map string_bytes words.now) (Dis file.now)) }
{
    match behind(words, "dis") {
        Some(file) if is_file(file) => Some(file),
        _ => None,
    }
}

fn gen_words(words: &[String]) -> Option<u32>
    ensures { MatchOption result ((n : ℕ) → Means (map string_bytes words.now) (Gen n) → ⊥) (λ n. Means (map string_bytes words.now) (Gen n)) }
{
    let n = number(behind(words, "gen")?)?;
    if 1 <= n && n <= 200 {
        Some(n as u32)
    } else {
        None
    }
}

/// The words of a command that writes a file: its name, that of the file, and the words behind them.
#[derive(Clone, Copy)]
struct Writing<'a> {
    command: &'a str,
    to: &'a str,
    files: &'a [String],
}

fn writing_words(words: &[String]) -> Option<Writing<'_>>
    ensures { MatchOption result ((command to : List ℕ) (files : List (List ℕ)) → map string_bytes words.now ≡ command ∷ codes "--out" ∷ to ∷ files → ⊥) (λ w. map string_bytes words.now ≡ w.command.now ∷ codes "--out" ∷ w.to.now ∷ map string_bytes w.files.now) }
{
    let (command, behind) = words.split_first()?;
    let (option, last) = behind.split_first()?;
    let (to, files) = last.split_first()?;
    if option.as_str() == "--out" {
        Some(Writing {
            command: command.as_str(),
            to: to.as_str(),
            files,
        })
    } else {
        None
    }
}

/// The word, if there is one alone.
fn alone(words: &[String]) -> Option<&str>
    ensures { MatchOption result ((word : List ℕ) → map string_bytes words.now ≡ word ∷ [] → ⊥) (λ word. map string_bytes words.now ≡ word.now ∷ []) }
{
    let (word, more) = words.split_first()?;
    if more.is_empty() {
        Some(word.as_str())
    } else {
        None
    }
}

/// What is made, the file that is written, and the one that is read.
fn make_words(words: &[String]) -> Option<(Making, &str, &str)>
    ensures { MatchOption result ((making : Making) (name file : List ℕ) → Means (map string_bytes words.now) (Make making name file) → ⊥) (λ r. Means (map string_bytes words.now) (Make r.0 r.1.now r.2.now)) }
{
    let writing = writing_words(words)?;
    let making = making_of(writing.command)?;
    let file = alone(writing.files)?;
    if is_file(writing.to) && making.takes(file) {
        Some((making, writing.to, file))
    } else {
        None
    }
}

/// The file that is written, and those that are read.
fn link_words(words: &[String]) -> Option<(&str, &[String])>
    ensures { MatchOption result ((name : List ℕ) (files : List (List ℕ)) → Means (map string_bytes words.now) (Link name files) → ⊥) (λ r. Means (map string_bytes words.now) (Link r.0.now (map string_bytes r.1.now))) }
{
    let writing = writing_words(words)?;
    if writing.command != "link" || !is_file(writing.to) {
        return None;
    }
    let count = writing.files.len();
    if 1 <= count && count < 0x1_0000_0000 && are_objects(writing.files) {
        Some((writing.to, writing.files))
    } else {
        None
    }
}

/// The command that the words mean, if they mean one.
pub fn command_in(words: &[String]) -> Option<Command<'_>>
    ensures means { MatchOption result (MeanNothing (map string_bytes words.now)) (λ c. Means (map string_bytes words.now) (command_of c)) }
    ensures fits { MatchOption result (Unit {0}) (λ c. Fits (command_of c)) }
{
    if let Some((settings, file)) = exec_words(words) {
        return Some(Command::Exec(settings, file));
    }
    if let Some(file) = run_words(words) {
        return Some(Command::Run(file));
    }
    if let Some(file) = dis_words(words) {
        return Some(Command::Dis(file));
    }
    if let Some(n) = gen_words(words) {
        return Some(Command::Gen(n));
    }
    if let Some((making, name, file)) = make_words(words) {
        return Some(Command::Make(making, name, file));
    }
    match link_words(words) {
        Some((name, files)) => Some(Command::Link(name, files)),
        None => None,
    }
}
