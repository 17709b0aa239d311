//! Small walks: names that meet, and refusals of the walk.
use gate_memory::{Fails, MemFiles};
use idl_files::{LoadError, read_files};
use idl_names::Documents;
use idl_rules::IdlRow;
use std::alloc::Global;
use std::test::*;

/// A name and a text.
type Held = (&'static [u8], &'static [u8]);

/// Reads this file and what it leads to.
fn read(alloc: Global, root: &[u8], held: &[Held]) -> Result<Documents, LoadError> {
    let mut files = MemFiles::new(alloc, Fails::new(alloc))?;
    for (name, text) in held {
        if text.len() < 1000 {
            files.put(name, text)?;
        }
    }
    read_files(alloc, &mut files, root)
}

/// Whether this file is refused so.
fn is_refused(read: Result<Documents, LoadError>, file: &[u8], offset: usize, row: IdlRow) -> bool {
    match read {
        Err(LoadError::Idl(fault)) => {
            fault.file.as_slice() == file && fault.offset == offset && fault.row == row
        }
        _ => false,
    }
}

#[test]
fn names_lead_through_directories(rt: HostRuntime) -> Result<(), Fail> {
    let held: [Held; 4] = [
        (b"a/b/root", b"include '../c/./one' include '/x/../two'"),
        (b"a/c/one", b"include '../../two'"),
        (b"two", b""),
        (b"/two", b""),
    ];
    let documents = read(rt.alloc(), b"a/b/root", &held).ok().ok_or("refused")?;
    let files = documents.as_slice();
    assert!(rt; files.len() == 4 && files[0].includes.as_slice() == [1, 3].as_slice());
    let absent = read(rt.alloc(), b"a/b/root", &held[..2]);
    assert!(rt; is_refused(absent, b"a/c/one", 8, IdlRow::MissingFile));
    Ok(())
}

#[test]
fn a_ring_is_refused(rt: HostRuntime) -> Result<(), Fail> {
    let ring: [Held; 2] = [(b"a", b"include 'b'"), (b"b", b"  include './a'")];
    let ring = read(rt.alloc(), b"a", &ring);
    assert!(rt; is_refused(ring, b"b", 10, IdlRow::IncludeCycle));
    Ok(())
}

/// A file that includes the next one.
fn put_link(alloc: Global, files: &mut MemFiles, number: u32, next: u32) -> Result<(), LoadError> {
    let name = format!(in alloc; "{}", number)?;
    let text = format!(in alloc; "include '{}'", next)?;
    if text.len() < 1000 {
        files.put(name.as_bytes(), text.as_bytes())?;
    }
    Ok(())
}

/// Reads the first of so many files, each of which includes the next one.
fn read_chain(alloc: Global, count: u32) -> Result<Documents, LoadError> {
    let mut files = MemFiles::new(alloc, Fails::new(alloc))?;
    for number in 0..count {
        put_link(alloc, &mut files, number, number + 1)?;
    }
    read_files(alloc, &mut files, b"0")
}

#[test]
fn the_next_file_is_one_too_many(rt: HostRuntime) -> Result<(), Fail> {
    assert!(rt; is_refused(read_chain(rt.alloc(), 300), b"255", 8, IdlRow::TooManyFiles));
    assert!(rt; is_refused(read_chain(rt.alloc(), 256), b"255", 8, IdlRow::TooManyFiles));
    assert!(rt; is_refused(read_chain(rt.alloc(), 255), b"254", 8, IdlRow::MissingFile));
    Ok(())
}
