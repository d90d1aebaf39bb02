//! The outside over real files and streams, with a count of faults each. A proof is told nothing of what they hold.
ghost use Rattle.std.specs.Prelude.{◌≡◌, None};
ghost use Rattle.std.specs.Io.KnownBytes.{ReadConsumes};
ghost use Rattle.mx_base.specs.Outside.{Untold, HasRisen, Takes, Counts};

use mx_base::{Failed, Files, Sink, Source};
use std::io::{ErrorKind, Read, Seek, SeekFrom, Write};
use std::{fs, rt};

/// The files of the system, by path.
#[derive(Drop)]
pub struct RealFiles<'a, R> {
    rt: &'a R,
    read_faults: u64,
    write_faults: u64,
}

impl<'a, R: rt::Files> RealFiles<'a, R> {
    /// The files of the system; no call has failed yet.
    pub fn new(rt: &'a R) -> Self
        ensures read_faults { result.read_faults ≡ 0 }
        ensures write_faults { result.write_faults ≡ 0 }
    {
        RealFiles {
            rt,
            read_faults: 0,
            write_faults: 0,
        }
    }

    /// Counts a read that failed.
    fn read_failed(&mut self) -> Failed
        ensures reads { HasRisen self.old.read_faults self.new.read_faults }
        ensures writes { self.new.write_faults ≡ self.old.write_faults }
    {
        self.read_faults = self.read_faults.saturating_add(1);
        Failed
    }
}

impl<'a, R: rt::Files> Files for RealFiles<'a, R> {
    ghost contents = { λ _ _. Untold };

    ghost read_faults = { λ files. files.read_faults };

    ghost write_faults = { λ files. files.write_faults };

    fn read_at(&mut self, name: &str, at: u64, buf: &mut [u8]) -> Result<Option<usize>, Failed> {
        let mut file = match fs::open(self.rt, name) {
            Ok(file) => file,
            Err(error) => return match error.kind() {
                ErrorKind::NotFound | ErrorKind::NotADirectory => Ok(None),
                _ => Err(self.read_failed()),
            },
        };
        if file.seek(SeekFrom::Start(at)).is_err() {
            return Err(self.read_failed());
        }
        match file.read(buf) {
            Ok(count) => Ok(Some(count)),
            Err(_) => Err(self.read_failed()),
        }
    }

    fn write_all(&mut self, name: &str, bytes: &[u8]) -> Result<(), Failed> {
        match fs::write(self.rt, name, bytes) {
            Ok(()) => Ok(()),
            Err(_) => {
                self.write_faults = self.write_faults.saturating_add(1);
                Err(Failed)
            }
        }
    }

    fn read_faults(&self) -> u64 {
        self.read_faults
    }

    fn write_faults(&self) -> u64 {
        self.write_faults
    }
}

/// A source over a reader of the system, as standard input.
#[derive(Drop)]
pub struct RealSource<R> {
    reader: R,
    faults: u64,
}

impl<R: Read> RealSource<R> {
    /// A source over this reader; no call has failed yet.
    pub fn new(reader: R) -> Self
        ensures { result.faults ≡ 0 }
    {
        RealSource { reader, faults: 0 }
    }
}

impl<R: Read> Source for RealSource<R> {
    ghost left = { λ _. None };

    ghost faults = { λ source. source.faults };

    fn take(&mut self, buf: &mut [u8]) -> Result<usize, Failed>
        ensures answer { Takes None None buf.new result }
        ensures faults { Counts result self.old.faults self.new.faults }
        ensures relays { ReadConsumes (R.remaining self.old.reader) (R.remaining self.new.reader) result buf.new }
    {
        match self.reader.read(buf) {
            Ok(count) => Ok(count),
            Err(_) => {
                self.faults = self.faults.saturating_add(1);
                Err(Failed)
            }
        }
    }

    fn faults(&self) -> u64 {
        self.faults
    }
}

/// A sink over a writer of the system, as standard output or standard error.
#[derive(Drop)]
pub struct RealSink<W> {
    writer: W,
    faults: u64,
}

impl<W: Write> RealSink<W> {
    /// A sink over this writer; no call has failed yet.
    pub fn new(writer: W) -> Self
        ensures { result.faults ≡ 0 }
    {
        RealSink { writer, faults: 0 }
    }
}

impl<W: Write> Sink for RealSink<W> {
    ghost held = { λ _. None };

    ghost faults = { λ sink. sink.faults };

    fn put(&mut self, bytes: &[u8]) -> Result<usize, Failed> {
        match self.writer.write(bytes) {
            Ok(count) if 0 < count || bytes.is_empty() => Ok(count),
            _ => {
                self.faults = self.faults.saturating_add(1);
                Err(Failed)
            }
        }
    }

    fn faults(&self) -> u64 {
        self.faults
    }
}
