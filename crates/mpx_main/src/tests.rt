//! The adapters over the system, each once, and a file without an end.
ghost use Rattle.mx_base.specs.Outside.{Untold};

use crate::real::{RealFiles, RealSink, RealSource};
use mpx_words::run::run_words;
use mx_base::{Failed, Files, MemSink, MemSource, Sink, Source};
use std::path::PathBuf;
use std::test::Fail;
use std::{env, fs};

/// A file of this test alone.
fn scratch_file(rt: &HostRuntime, name: &str) -> Result<PathBuf, Fail> {
    let mut path = env::temp_dir(rt)?;
    path.push(name)?;
    Ok(path)
}

#[test]
fn real_files(rt: HostRuntime) -> Result<(), Fail> {
    let scratch = scratch_file(&rt, "mpxc-files-test")?;
    let path = scratch.as_str();
    let mut files = RealFiles::new(&rt);
    let mut buf = [0u8; 4];
    files.write_all(path, b"abcdef")?;
    let read = files.read_at(path, 4, &mut buf);
    let missing = files.read_at("no/such/file.c", 0, &mut buf);
    let found = (read, missing, files.read_faults(), buf);
    assert_eq!(rt; found, (Ok(Some(2)), Ok(None), 0, [b'e', b'f', 0, 0]));
    let refused = files.write_all("no/such/file.c", b"");
    assert_eq!(rt; (refused, files.write_faults()), (Err(Failed), 1));
    fs::remove_file(&rt, path)?;
    Ok(())
}

#[test]
fn real_source(rt: HostRuntime) -> Result<(), Fail> {
    let scratch = scratch_file(&rt, "mpxc-source-test")?;
    let path = scratch.as_str();
    fs::write(&rt, path, b"abcdef")?;
    let mut source = RealSource::new(fs::open(&rt, path)?);
    let mut buf = [0u8; 4];
    let first = (source.take(&mut buf), buf);
    let rest = (source.take(&mut buf), source.take(&mut buf));
    let found = (first, rest, source.faults());
    assert_eq!(rt;
        found,
        ((Ok(4), [b'a', b'b', b'c', b'd']), (Ok(2), Ok(0)), 0)
    );
    fs::remove_file(&rt, path)?;
    Ok(())
}

#[test]
fn real_sink(rt: HostRuntime) -> Result<(), Fail> {
    let scratch = scratch_file(&rt, "mpxc-sink-test")?;
    let path = scratch.as_str();
    let mut sink = RealSink::new(fs::create(&rt, path)?);
    let put = (sink.put(b"xy"), sink.put(b""), sink.faults());
    let held = fs::read(&rt, path)?;
    assert_eq!(rt;
        (put, held.as_slice()),
        ((Ok(2), Ok(0), 0), b"xy".as_slice())
    );
    fs::remove_file(&rt, path)?;
    Ok(())
}

/// A file of zeros without an end.
#[derive(Drop)]
struct Zeros;

impl Files for Zeros {
    ghost contents = { λ _ _. Untold };

    ghost read_faults = { λ _. 0 };

    ghost write_faults = { λ _. 0 };

    fn read_at(&mut self, _name: &str, _at: u64, buf: &mut [u8]) -> Result<Option<usize>, Failed> {
        buf.fill(0);
        Ok(Some(buf.len()))
    }

    fn write_all(&mut self, _name: &str, _bytes: &[u8]) -> Result<(), Failed> {
        Ok(())
    }

    fn read_faults(&self) -> u64 {
        0
    }

    fn write_faults(&self) -> u64 {
        0
    }
}

#[test]
fn a_file_without_an_end(rt: HostRuntime) -> Result<(), Fail> {
    let alloc = rt.alloc();
    let words = vec![in alloc;
        String::from_str(alloc, "exec")?,
        String::from_str(alloc, "zeros")?,
    ]?;
    let mut input = MemSource::make(alloc, b"", &[])?;
    let mut out = MemSink::make(alloc, 100, &[])?;
    let mut err = MemSink::make(alloc, 100, &[])?;
    let status = run_words(
        alloc,
        words.as_slice(),
        &mut Zeros,
        &mut input,
        &mut out,
        &mut err,
    );
    assert_eq!(rt; (status, err.held()), (1, b"zeros: FileLarge\n".as_slice()));
    Ok(())
}
