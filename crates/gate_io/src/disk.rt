//! The files of the disk. They tell no content.
ghost use Rattle.std.specs.Prelude.{◌≡◌, ◌<◌, ◌≤◌, None, OnOk, length};
ghost use Rattle.gate_io.specs.Fetching.{IsShort};

use crate::{Fetched, Files, Got, Source, StdSource};
use gate_base::Text;
use std::alloc::{AllocError, Global};
use std::fs::{self, File, OpenFile};
use std::io::{ErrorKind, Read};
use std::rt;

/// The most bytes that a file may have.
const LONGEST_FILE: usize = 16_777_216;

/// The files that the system has under their names.
///
/// A name that isn't UTF-8, or that holds a NUL byte, is of no file. A file that may not be read, a
/// file of over 16,777,216 bytes, and what is no regular file, as a folder or a FIFO, are faults.
#[derive(Drop)]
pub struct DiskFiles<R> {
    rt: R,
    faults: u64,
}

impl<R> DiskFiles<R> {
    /// The files that this runtime opens.
    pub fn new(rt: R) -> DiskFiles<R>
        ensures { result.faults ≡ 0 }
    {
        DiskFiles { rt, faults: 0 }
    }
}

impl<R: rt::Files> Files for DiskFiles<R> {
    ghost holds = { λ _. None };

    ghost faults = { λ f. f.faults };

    fn fetch(&mut self, alloc: Global, name: &[u8]) -> Fetched {
        let fetched = read_named(&self.rt, alloc, name);
        if let Fetched::Failed = fetched {
            self.faults = self.faults.saturating_add(1);
        }
        fetched
    }
}

// The bytes of the file of this name.
fn read_named<R: rt::Files>(rt: &R, alloc: Global, name: &[u8]) -> Fetched
    ensures { IsShort result }
{
    let Ok(path) = str::from_utf8(name) else {
        return Fetched::Absent;
    };
    if name.contains(&0) {
        return Fetched::Absent;
    }
    match fs::metadata(rt, path) {
        Ok(metadata) if metadata.is_file() => open_regular(rt, alloc, path),
        Ok(_) => Fetched::Failed,
        Err(error) => unopened(error.kind()),
    }
}

// The bytes of a regular file. To open another one, as a FIFO, could wait for ever.
fn open_regular<R: rt::Files>(rt: &R, alloc: Global, path: &str) -> Fetched
    ensures { IsShort result }
{
    match File::open(rt, path) {
        Ok(file) => read_whole(alloc, file),
        Err(error) => unopened(error.kind()),
    }
}

// What a file that can't be opened is: a name below another file's is of no file either.
fn unopened(kind: ErrorKind) -> Fetched
    ensures { IsShort result }
{
    match kind {
        ErrorKind::NotFound | ErrorKind::NotADirectory => Fetched::Absent,
        _ => Fetched::Failed,
    }
}

// All bytes of an opened file. Its stated size is only where the room begins: some files have none.
fn read_whole<F: Read + OpenFile + Drop>(alloc: Global, file: F) -> Fetched
    ensures { IsShort result }
{
    let Ok(metadata) = file.metadata() else {
        return Fetched::Failed;
    };
    let size = metadata.len().min(LONGEST_FILE as u64) as usize;
    let Ok(mut bytes) = vec![in alloc; 0; size + 1] else {
        return Fetched::OutOfMemory;
    };
    let mut source = StdSource::new(file);
    let mut len = 0;
    while len <= LONGEST_FILE {
        if make_room(&mut bytes, len).is_err() {
            return Fetched::OutOfMemory;
        }
        match source.read(&mut bytes[len..]) {
            Got::Bytes(count) => len += count,
            Got::Failed => return Fetched::Failed,
            Got::End => {
                bytes.truncate(len);
                return Fetched::Found(Text::of_bytes(bytes));
            }
        }
    }
    Fetched::Failed
}

// Makes room for at least one byte behind so many.
fn make_room(bytes: &mut Vec<u8>, len: usize) -> Result<(), AllocError>
    requires { len ≤ LONGEST_FILE }
    ensures { OnOk result (len < length bytes.new.items) }
{
    if len < bytes.len() {
        return Ok(());
    }
    bytes.resize((2 * len + 1).min(LONGEST_FILE + 1), 0)
}
