//! Long chains of declarations, and types as deep as they may be.
use gate_base::OutOfMemory;
use gate_idl::open;
use gate_memory::{Fails, MemFiles};
use std::alloc::Global;
use std::test::*;

/// How many declarations stand in a chain.
const CHAIN: u32 = 2_000;

/// How many types lie in one another at most.
const DEPTH: u32 = 64;

/// The bytes that a text of these tests has at most.
const LONGEST: usize = 1_000_000;

/// What each declaration of a chain begins with, and what stands between its two names.
#[derive(Clone, Copy)]
enum Chain {
    Typedefs,
    Consts,
    Services,
}

/// Appends the declaration of this number, which names the one before it.
fn append_link(
    alloc: Global,
    text: &mut Vec<u8>,
    chain: Chain,
    number: u32,
) -> Result<(), OutOfMemory> {
    let before = number - number.min(1);
    let link = match chain {
        Chain::Typedefs => format!(in alloc; "typedef N{} N{}\n", before, number)?,
        Chain::Consts => format!(in alloc; "const i32 N{} = N{}\n", number, before)?,
        Chain::Services => format!(in alloc; "service N{} extends N{} {{}}\n", number, before)?,
    };
    text.extend_from_slice(link.as_bytes())?;
    Ok(())
}

/// A first declaration, and a chain of declarations behind it.
fn chain_text(alloc: Global, first: &[u8], chain: Chain) -> Result<Vec<u8>, OutOfMemory> {
    let mut text = Vec::new(alloc);
    text.extend_from_slice(first)?;
    for number in 1..CHAIN {
        append_link(alloc, &mut text, chain, number)?;
    }
    Ok(text)
}

/// A struct whose one field is so many lists in one another.
fn deep_text(alloc: Global, depth: u32) -> Result<Vec<u8>, OutOfMemory> {
    let mut text = Vec::new(alloc);
    text.extend_from_slice(b"struct S { 1: ")?;
    for _ in 0..depth {
        text.extend_from_slice(b"list<")?;
    }
    text.extend_from_slice(b"i32")?;
    for _ in 0..depth {
        text.push(b'>')?;
    }
    text.extend_from_slice(b" a }")?;
    Ok(text)
}

/// Whether this text has a schema.
fn has_schema(alloc: Global, text: &[u8]) -> Result<bool, OutOfMemory> {
    let mut files = MemFiles::new(alloc, Fails::new(alloc))?;
    if text.len() < LONGEST {
        files.put(b"root", text)?;
    }
    Ok(open(alloc, &mut files, b"root").is_ok())
}

#[test]
fn long_chains_are_followed(rt: HostRuntime) -> Result<(), Fail> {
    let alloc = rt.alloc();
    let firsts: [(&[u8], Chain); 3] = [
        (b"typedef i32 N0\n", Chain::Typedefs),
        (b"const i32 N0 = 1\n", Chain::Consts),
        (b"service N0 {}\n", Chain::Services),
    ];
    for (first, chain) in firsts {
        let text = chain_text(alloc, first, chain).ok().ok_or("memory")?;
        assert!(rt; has_schema(alloc, &text).ok() == Some(true));
    }
    Ok(())
}

#[test]
fn types_lie_as_deep_as_they_may(rt: HostRuntime) -> Result<(), Fail> {
    let alloc = rt.alloc();
    let text = deep_text(alloc, DEPTH).ok().ok_or("memory")?;
    assert!(rt; has_schema(alloc, &text).ok() == Some(true));
    Ok(())
}
