//! Small IDLs and their refusals, and one of two files.
use gate_memory::{Fails, MemFiles};
use idl_resolve::{IdlRow, LoadError, Loaded, load};
use std::alloc::Global;
use std::test::*;

/// Loads the first of these files, of which each has a name and a text.
fn load_first(alloc: Global, held: &[(&[u8], &[u8])]) -> Result<Loaded, LoadError> {
    let mut files = MemFiles::new(alloc, Fails::new(alloc))?;
    for (name, text) in held {
        if text.len() < 1000 {
            files.put(name, text)?;
        }
    }
    match held.first() {
        Some((root, _)) => load(alloc, &mut files, root),
        None => Err(LoadError::OutOfMemory),
    }
}

/// Whether a text alone is refused so.
fn is_refused(alloc: Global, text: &[u8], offset: usize, row: IdlRow) -> bool {
    match load_first(alloc, &[(b"root", text)]) {
        Err(LoadError::Idl(fault)) => {
            fault.file.as_slice() == b"root".as_slice()
                && fault.offset == offset
                && fault.row == row
        }
        _ => false,
    }
}

#[test]
fn refusals_are_told(rt: HostRuntime) -> Result<(), Fail> {
    let alloc = rt.alloc();
    assert!(rt; is_refused(alloc, b"struct S { 1: i32 a\n", 20, IdlRow::SyntaxFault));
    assert!(rt; is_refused(alloc, b"/* x", 0, IdlRow::LexicalFault));
    assert!(rt;
        is_refused(
            alloc,
            b"typedef A B\ntypedef B A\n",
            10,
            IdlRow::TypedefCycle
        )
    );
    assert!(rt;
        is_refused(
            alloc,
            b"struct S { 1: i32 a, 1: i32 b }",
            21,
            IdlRow::DuplicateFieldId
        )
    );
    assert!(rt; is_refused(alloc, b"struct S { 0: X a }", 11, IdlRow::IdOutOfRange));
    assert!(rt;
        is_refused(
            alloc,
            b"service S { void f() throws (1: i32 e) }",
            32,
            IdlRow::NotAnException
        )
    );
    Ok(())
}

#[test]
fn two_files_make_a_schema(rt: HostRuntime) -> Result<(), Fail> {
    let calls =
        b"include 'shared.thrift' union Either { 1: i64 n } service Calls extends shared.Base { void ping() }";
    let shared = b"typedef string Name service Base { Name name(1: i32 id) }";
    let held = [
        (b"calls.thrift".as_slice(), calls.as_slice()),
        (b"shared.thrift".as_slice(), shared.as_slice()),
    ];
    let loaded = load_first(rt.alloc(), &held).ok().ok_or("refused")?;
    assert_eq!(rt; loaded.documents.as_slice().len(), 2);
    let service = loaded.schema.service(b"Calls").ok_or("service")?;
    assert!(rt; loaded.schema.method(service, b"name").is_some());
    Ok(())
}
