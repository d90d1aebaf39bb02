//! A row over objects in memory: those that fail where they are told to, and those that never fail.

use crate::content::{content, count_files, write_files};
use crate::setting::{AMPLE, FILES, ROOM, Setting, setting_of};
use crate::show::{show, show_changes};
use mpx_words::run::run_words;
use mx_base::{
    Files, MemFiles, MemSink, MemSource, OutOfMemory, Sink, Source, SureFiles, SureSink, SureSource,
};
use std::alloc::Global;

/// What comes of a row, where it is not what is wanted.
pub fn outcome(
    alloc: Global,
    given: &str,
    row: &str,
    wanted: &str,
) -> Result<Option<String>, OutOfMemory> {
    let text = format!(in alloc; "{given}{row}\n")?;
    let setting = setting_of(row);
    let found = over_memory(alloc, text.as_str(), row, setting)?;
    if found.as_str() != wanted {
        return Ok(Some(found));
    }
    if setting != AMPLE {
        return Ok(None);
    }
    let found = over_sure(alloc, text.as_str(), row)?;
    Ok(if found.as_str() == wanted {
        None
    } else {
        Some(found)
    })
}

/// What comes over objects that fail where the row says so.
fn over_memory(
    alloc: Global,
    text: &str,
    row: &str,
    setting: Setting,
) -> Result<String, OutOfMemory> {
    let call = count_files(text).saturating_add(setting.files);
    let mut files = MemFiles::make(alloc, FILES, setting.room_file, &[call])?;
    let mut before = SureFiles::make(alloc, FILES, setting.room_file)?;
    let mut found = String::new(alloc);
    if !write_files(alloc, &mut files, text)? || !write_files(alloc, &mut before, text)? {
        found.push_str("a file is too large for its room\n")?;
    }
    let input = content(alloc, text, "input")?;
    do_commands(alloc, row, &mut files, &input, setting, &mut found)?;
    show_changes(
        alloc,
        &mut found,
        row,
        &mut before,
        &mut files,
        setting.room_file,
    )?;
    Ok(found)
}

/// Does each command of a row over objects that fail where it says so.
fn do_commands(
    alloc: Global,
    row: &str,
    files: &mut MemFiles,
    input: &[u8],
    setting: Setting,
    found: &mut String,
) -> Result<(), OutOfMemory> {
    for line in row.lines() {
        if let Some(words) = line.strip_prefix('>') {
            let mut input = MemSource::make(alloc, input, &[setting.input])?;
            let mut out = MemSink::make(alloc, setting.room_out, &[setting.out])?;
            let mut err = MemSink::make(alloc, setting.room_err, &[setting.err])?;
            let status = command(alloc, words, files, &mut input, &mut out, &mut err)?;
            tell(alloc, found, line, out.held(), err.held(), status)?;
        }
    }
    Ok(())
}

/// What comes over objects that never fail.
fn over_sure(alloc: Global, text: &str, row: &str) -> Result<String, OutOfMemory> {
    let mut files = SureFiles::make(alloc, FILES, ROOM)?;
    let mut before = SureFiles::make(alloc, FILES, ROOM)?;
    let mut found = String::new(alloc);
    let _had_room = write_files(alloc, &mut files, text)? && write_files(alloc, &mut before, text)?;
    let bytes = content(alloc, text, "input")?;
    for line in row.lines() {
        if let Some(words) = line.strip_prefix('>') {
            let mut input = SureSource::make(alloc, &bytes)?;
            let mut out = SureSink::make(alloc, ROOM)?;
            let mut err = SureSink::make(alloc, ROOM)?;
            let status = command(alloc, words, &mut files, &mut input, &mut out, &mut err)?;
            tell(alloc, &mut found, line, out.held(), err.held(), status)?;
        }
    }
    show_changes(alloc, &mut found, row, &mut before, &mut files, ROOM)?;
    Ok(found)
}

/// Does a command, and answers its status.
fn command<F: Files, I: Source, O: Sink, E: Sink>(
    alloc: Global,
    line: &str,
    files: &mut F,
    input: &mut I,
    out: &mut O,
    err: &mut E,
) -> Result<u8, OutOfMemory> {
    let mut words = Vec::new(alloc);
    for word in line.split_whitespace() {
        words.push(String::from_str(alloc, word)?)?;
    }
    Ok(run_words(alloc, words.as_slice(), files, input, out, err))
}

/// Appends a command and what came of it.
fn tell(
    alloc: Global,
    found: &mut String,
    line: &str,
    out: &[u8],
    err: &[u8],
    status: u8,
) -> Result<(), OutOfMemory> {
    found.push_str(format!(in alloc; "{line}\n")?.as_str())?;
    show(alloc, found, "out", out)?;
    show(alloc, found, "err", err)?;
    found.push_str(format!(in alloc; "status {status}\n")?.as_str())?;
    Ok(())
}
