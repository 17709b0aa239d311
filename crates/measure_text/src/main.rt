//! Reads or writes one long word of JSON again and again and prints `ok`, so that a clock outside tells how fast that is.
//!
//!     measure_text WORK SIZE EVERY ROUNDS
//!
//! WORK is `read_text`, `write_text`, `read_blob` or `write_blob`. The word means SIZE bytes, at most 16 MiB: letters with
//! a line feed after each EVERY of them, where EVERY isn't 0. `skip` does none of the work. Any other WORK is an error, and so
//! is a number that is missing or isn't one. `wrong` is printed where a word that was read doesn't mean SIZE bytes.
#![tactic(auto)]

ghost use Rattle.std.specs.Prelude.{◌≡◌, ◌≤◌, ◌<◌, ◌^◌, ◌+◌, ◌*◌, ◌++◌, ◌==◌, ◌||◌, length, IfOk, IfSome, IfNone, IsErr, string_bytes, if◌then◌else◌};
ghost use Rattle.std.specs.Result.{result_ok};
ghost use Rattle.std.specs.Str.Parse.{ParsesUnsigned};
ghost use Rattle.json_text.specs.Scan.{Reads};
ghost use Rattle.measure_text.specs.Words.{work_named};
ghost use Rattle.measure_text.specs.Measured.{next_byte, letters, spelling, scan_of, is_read, is_blob, is_right};

use gate_base::OutOfMemory;
use gate_io::Out;
use json_text::{Scan, read_blob, read_text, write_blob, write_text};
use std::alloc::Global;
use std::env;

/// The longest word that is taken, in bytes that it means.
const MOST: usize = 16_777_216;

/// The longest spelling, in bytes.
const LONGEST: usize = 6 * MOST + 2;

/// What is done in each round.
#[derive(Clone, Copy)]
enum Work {
    ReadText,
    WriteText,
    ReadBlob,
    WriteBlob,
    Skip,
}

/// The work that a word names. Any other word is an error.
fn work_of(word: &str) -> anyhow::Result<Work>
    ensures { result_ok result ≡ work_named word.now }
{
    match word {
        "read_text" => Ok(Work::ReadText),
        "write_text" => Ok(Work::WriteText),
        "read_blob" => Ok(Work::ReadBlob),
        "write_blob" => Ok(Work::WriteBlob),
        "skip" => Ok(Work::Skip),
        _ => Err(anyhow::anyhow!("no such work")),
    }
}

/// The next byte, where `left` letters come before a line feed, and how many come before one behind it.
fn next_byte(every: usize, left: usize) -> (u8, usize)
    ensures { result ≡ next_byte every left }
{
    if left == 0 && every > 0 {
        (b'\n', every)
    } else {
        (b'a', left.saturating_sub(1))
    }
}

/// Letters, with a line feed after each `every` of them, where that isn't 0.
fn fill(bytes: &mut [u8], every: usize)
    ensures { bytes.new ≡ letters every every (length bytes.old) }
{
    let mut left = every;
    for byte in bytes.iter_mut() {
        let (next, behind) = next_byte(every, left);
        *byte = next;
        left = behind;
    }
}

/// Appends the word that means these bytes.
fn write(meant: &[u8], out: &mut Out, as_blob: bool)
    requires { length out.old.bytes + length (spelling as_blob meant.now) ≤ out.old.room }
    ensures { out.new ≡ record out.old { bytes = out.old.bytes ++ spelling as_blob meant.now } }
{
    if as_blob {
        write_blob(meant, out)
    } else {
        write_text(meant, out)
    }
}

/// Whether the word is base64.
fn is_blob(work: Work) -> bool
    ensures { result ≡ is_blob work }
{
    matches!(work, Work::ReadBlob | Work::WriteBlob)
}

/// The word that means these bytes.
///
/// `OutOfMemory`: the room for the longest spelling was not found.
#[tactic(auto, using(crate::proofs::Words::spelling_long))]
fn spelled(alloc: Global, meant: &[u8], as_blob: bool) -> Result<Out, OutOfMemory>
    requires { length meant.now ≤ 16777216 }
    ensures { IfOk result (λ out. out ≡ record { bytes = spelling as_blob meant.now; room = 6 * length meant.now + 2 }) }
{
    let mut out = Out::open(alloc, 6 * meant.len() + 2)?;
    write(meant, &mut out, as_blob);
    Ok(out)
}

/// Reads the word once.
fn scan(word: &[u8], room: &mut [u8], as_blob: bool) -> Scan<usize>
    requires room { length word.now ≤ length room.old }
    requires size { length word.now < 2 ^ 62 }
    ensures { Reads result room.new (scan_of as_blob word.now) }
{
    if as_blob {
        read_blob(word, 0, room)
    } else {
        read_text(word, 0, room)
    }
}

/// Reads the word once. Whether it means so many bytes. A word that is longer than its room or too long isn't read.
fn is_read(word: &[u8], room: &mut [u8], as_blob: bool, size: usize) -> bool
    ensures { result ≡ is_read as_blob size (length room.old) word.now }
{
    if word.len() > room.len() || word.len() > LONGEST {
        return false;
    }
    match scan(word, room, as_blob) {
        Scan::Whole(count, after) => count == size && after == word.len(),
        _ => false,
    }
}

/// Reads the word so many times. Whether it meant so many bytes each time.
fn read_rounds(word: &[u8], room: &mut [u8], as_blob: bool, size: usize, rounds: usize) -> bool
    ensures { result ≡ ((rounds == 0) || is_read as_blob size (length room.old) word.now) }
{
    let mut good = true;
    for round in 0..rounds {
        good = is_read(word, room, as_blob, size) && good;
    }
    good
}

/// Writes the word once, alone.
#[tactic(auto, using(crate::proofs::Words::spelling_long))]
fn write_once(meant: &[u8], out: &mut Out, as_blob: bool)
    requires { 6 * length meant.now + 2 ≤ out.old.room }
    ensures { out.new ≡ record out.old { bytes = spelling as_blob meant.now } }
{
    out.clear();
    write(meant, out, as_blob);
}

/// Writes the word so many times, each time alone.
fn write_rounds(meant: &[u8], out: &mut Out, as_blob: bool, rounds: usize)
    requires { 6 * length meant.now + 2 ≤ out.old.room }
    ensures bytes { out.new.bytes ≡ (if rounds == 0 then out.old.bytes else spelling as_blob meant.now) }
    ensures room { out.new.room ≡ out.old.room }
{
    for round in 0..rounds {
        write_once(meant, out, as_blob);
    }
}

/// Does this work on the word that means `size` bytes, so many times. Whether all that was read was right.
///
/// `OutOfMemory`: the memory for the bytes, the word or the reader's room was not found.
fn measure(
    alloc: Global,
    work: Work,
    size: usize,
    every: usize,
    rounds: usize,
) -> Result<bool, OutOfMemory>
    requires { size ≤ 16777216 }
    ensures { IfOk result (λ right. right ≡ is_right work (letters every every size) rounds) }
{
    let mut meant = vec![in alloc; 0; size]?;
    fill(&mut meant, every);
    let as_blob = is_blob(work);
    let mut out = spelled(alloc, &meant, as_blob)?;
    let mut room = vec![in alloc; 0; out.bytes().len()]?;
    match work {
        Work::ReadText | Work::ReadBlob => Ok(read_rounds(
            out.bytes(),
            &mut room,
            as_blob,
            size,
            rounds,
        )),
        Work::WriteText | Work::WriteBlob => {
            write_rounds(&meant, &mut out, as_blob, rounds);
            Ok(is_read(out.bytes(), &mut room, as_blob, size))
        }
        Work::Skip => Ok(true),
    }
}

/// The number below 2^64 that a word spells in decimal. Any other word is an error, and so is none.
fn number_of(word: Option<String>) -> anyhow::Result<usize>
    ensures some { IfSome word (λ digits. ParsesUnsigned 64 10 (string_bytes digits) result) }
    ensures none { IfNone word (IsErr result) }
{
    match word {
        Some(digits) => Ok(digits.parse()?),
        None => Err(anyhow::anyhow!("measure_text WORK SIZE EVERY ROUNDS")),
    }
}

fn main(rt: HostRuntime) -> anyhow::Result<()> {
    let mut words = env::args(&rt)?;
    let _program = words.next();
    let work = match words.next() {
        Some(word) => work_of(&word)?,
        None => Work::Skip,
    };
    let size = number_of(words.next())?;
    let every = number_of(words.next())?;
    let rounds = number_of(words.next())?;
    match measure(rt.alloc(), work, size.min(MOST), every, rounds) {
        Ok(true) => println!(rt; "ok")?,
        Ok(false) => println!(rt; "wrong")?,
        Err(OutOfMemory) => println!(rt; "no memory")?,
    }
    Ok(())
}
