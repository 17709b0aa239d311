//! The number at the front of some bytes.
ghost use Rattle.std.specs.Prelude.{◌≡◌, ◌+◌, ◌≤◌, ℕ, ◌^◌, ◌<◌, length, take, Ok, ◌↔◌, IsTrue, IfOk, IfSome, IsErrOf};
ghost use Rattle.varint_zigzag.specs.Varint.{Spells, CanBecome, BeginsNone, varint_at};

use crate::fault::VarFault;

/// Reads a number below 2^16, of at most five bytes, and says how many it takes. It may be padded.
///
/// `Short` where the bytes end inside what can still become such a number, `Bad` where they begin none (the varints
/// of the Compact protocol specification).
#[inline(always)]
pub fn read_u16(bytes: &[u8]) -> Result<(u16, usize), VarFault>
    ensures within { IfOk result (λ found. found.1 ≤ length bytes.now) }
    ensures found { IfOk result (λ found. Spells 5 16 (take found.1 bytes.now) found.0) }
    ensures short { IsErrOf result VarFault.Short → CanBecome 5 16 bytes.now }
    ensures bad { IsErrOf result VarFault.Bad → BeginsNone 5 16 bytes.now }
    ensures exact { result ≡ varint_at 5 16 bytes.now }
{
    if let Some(number) = single(bytes) {
        return Ok((u16::from(number), 1));
    }
    match read_groups(bytes, 5, 16) {
        Ok((number, used)) => Ok((number as u16, used)),
        Err(fault) => Err(fault),
    }
}

/// Reads a number below 2^32, of at most five bytes, and says how many it takes. It may be padded.
///
/// `Short` where the bytes end inside what can still become such a number, `Bad` where they begin none (the varints
/// of the Compact protocol specification).
#[inline(always)]
pub fn read_u32(bytes: &[u8]) -> Result<(u32, usize), VarFault>
    ensures within { IfOk result (λ found. found.1 ≤ length bytes.now) }
    ensures found { IfOk result (λ found. Spells 5 32 (take found.1 bytes.now) found.0) }
    ensures short { IsErrOf result VarFault.Short → CanBecome 5 32 bytes.now }
    ensures bad { IsErrOf result VarFault.Bad → BeginsNone 5 32 bytes.now }
    ensures exact { result ≡ varint_at 5 32 bytes.now }
{
    if let Some(number) = single(bytes) {
        return Ok((u32::from(number), 1));
    }
    match read_groups(bytes, 5, 32) {
        Ok((number, used)) => Ok((number as u32, used)),
        Err(fault) => Err(fault),
    }
}

/// Reads a number below 2^64, of at most ten bytes, and says how many it takes. It may be padded.
///
/// `Short` where the bytes end inside what can still become such a number, `Bad` where they begin none (the varints
/// of the Compact protocol specification).
#[inline(always)]
pub fn read_u64(bytes: &[u8]) -> Result<(u64, usize), VarFault>
    ensures within { IfOk result (λ found. found.1 ≤ length bytes.now) }
    ensures found { IfOk result (λ found. Spells 10 64 (take found.1 bytes.now) found.0) }
    ensures short { IsErrOf result VarFault.Short → CanBecome 10 64 bytes.now }
    ensures bad { IsErrOf result VarFault.Bad → BeginsNone 10 64 bytes.now }
    ensures exact { result ≡ varint_at 10 64 bytes.now }
{
    if let Some(number) = single(bytes) {
        return Ok((u64::from(number), 1));
    }
    read_groups(bytes, 10, 64)
}

// The number of one byte, as most are.
#[inline(always)]
fn single(bytes: &[u8]) -> Option<u8>
    ensures found { IfSome result (λ n. (most width : ℕ) → 0 < most → 7 ≤ width → varint_at most width bytes.now ≡ Ok (n, 1)) }
    ensures some { IfSome result (λ _. 0 < length bytes.now) }
{
    if bytes.is_empty() {
        return None;
    }
    let first = bytes[0];
    if first < 128 { Some(first) } else { None }
}

// Reads groups of seven bits: at most so many of them, for a number of so many bits.
fn read_groups(bytes: &[u8], most: usize, width: u32) -> Result<(u64, usize), VarFault>
    requires width { width ≤ 64 }
    requires most { most ≤ 10 }
    ensures { result ≡ varint_at most width bytes.now }
{
    let mut number = 0;
    let mut at = 0;
    let mut shift = 0;
    while at < most {
        if at >= bytes.len() {
            return Err(VarFault::Short);
        }
        let byte = bytes[at];
        let low = u64::from(byte % 128);
        if !fits_in(low, width.saturating_sub(shift)) {
            return Err(VarFault::Bad);
        }
        number += low << shift;
        at += 1;
        if byte < 128 {
            return Ok((number, at));
        }
        shift += 7;
    }
    Err(VarFault::Bad)
}

// Seven bits are a number of so many bits.
fn fits_in(low: u64, width: u32) -> bool
    requires { low < 128 }
    ensures { IsTrue result ↔ low < 2 ^ width }
{
    width >= 7 || low < 1 << width
}
