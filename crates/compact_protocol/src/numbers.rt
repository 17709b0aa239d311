//! Varints, sizes and strings at the front of a slice, with the number of bytes that each takes.
ghost use Rattle.std.specs.Prelude.{◌≡◌, ◌+◌, ◌≤◌, ◌<◌, drop, length};
ghost use Rattle.varint_zigzag.specs.Zigzag.{unfolded};
ghost use Rattle.protocol_traits.specs.Steps.{seen};
ghost use Rattle.compact_protocol.specs.Scan.{IsWithin, string_scan, shifted, varint16_at, varint32_at, varint64_at, id_at, size_at, string_at};

use protocol_traits::{Fault, Reason, fault_at};
use varint_zigzag::{VarFault, read_u16, read_u32, read_u64};

/// A varint of 16 bits, in at most five bytes: `Truncated` where the bytes end inside it, `BadVarint` where they begin none.
#[tactic(auto, unfolding(crate::specs::Scan::varint16_at))]
#[inline(always)]
pub fn varint16_at(bytes: &[u8]) -> Result<(u16, usize), Fault>
    ensures within { IsWithin (length bytes.now) result }
    ensures exact { result ≡ varint16_at bytes.now }
{
    match read_u16(bytes) {
        Ok(found) => Ok(found),
        Err(VarFault::Short) => Err(fault_at(bytes.len(), Reason::Truncated)),
        Err(VarFault::Bad) => Err(fault_at(0, Reason::BadVarint)),
    }
}

/// A varint of 32 bits, in at most five bytes: `Truncated` where the bytes end inside it, `BadVarint` where they begin none.
#[tactic(auto, unfolding(crate::specs::Scan::varint32_at))]
#[inline(always)]
pub fn varint32_at(bytes: &[u8]) -> Result<(u32, usize), Fault>
    ensures within { IsWithin (length bytes.now) result }
    ensures exact { result ≡ varint32_at bytes.now }
{
    match read_u32(bytes) {
        Ok(found) => Ok(found),
        Err(VarFault::Short) => Err(fault_at(bytes.len(), Reason::Truncated)),
        Err(VarFault::Bad) => Err(fault_at(0, Reason::BadVarint)),
    }
}

/// A varint of 64 bits, in at most ten bytes: `Truncated` where the bytes end inside it, `BadVarint` where they begin none.
#[tactic(auto, unfolding(crate::specs::Scan::varint64_at))]
#[inline(always)]
pub fn varint64_at(bytes: &[u8]) -> Result<(u64, usize), Fault>
    ensures within { IsWithin (length bytes.now) result }
    ensures exact { result ≡ varint64_at bytes.now }
{
    match read_u64(bytes) {
        Ok(found) => Ok(found),
        Err(VarFault::Short) => Err(fault_at(bytes.len(), Reason::Truncated)),
        Err(VarFault::Bad) => Err(fault_at(0, Reason::BadVarint)),
    }
}

/// The signed number that a folded one of 16 bits stands for.
#[inline(always)]
fn unfolded16(number: u16) -> i16
    ensures { result ≡ unfolded number }
{
    let half = (number / 2) as i16;
    if number % 2 == 0 { half } else { -half - 1 }
}

/// A signed number of 16 bits.
#[tactic(auto, unfolding(crate::specs::Scan::id_at))]
#[inline(always)]
pub fn id_at(bytes: &[u8]) -> Result<(i16, usize), Fault>
    ensures within { IsWithin (length bytes.now) result }
    ensures exact { result ≡ id_at bytes.now }
{
    let (number, taken) = varint16_at(bytes)?;
    Ok((unfolded16(number), taken))
}

/// A size or length: `BadSize` above 2^31 - 1.
#[tactic(auto, unfolding(crate::specs::Scan::size_at))]
#[inline(always)]
pub fn size_at(bytes: &[u8]) -> Result<(u32, usize), Fault>
    ensures within { IsWithin (length bytes.now) result }
    ensures exact { result ≡ size_at bytes.now }
{
    let (size, taken) = varint32_at(bytes)?;
    if size < 1 << 31 {
        Ok((size, taken))
    } else {
        Err(fault_at(0, Reason::BadSize))
    }
}

/// A length and so many bytes: `Truncated` where fewer stand there.
#[tactic(auto, unfolding(crate::specs::Scan::string_at))]
#[inline(always)]
pub fn string_at(bytes: &[u8]) -> Result<(&[u8], usize), Fault>
    ensures within { IsWithin (length bytes.now) result }
    ensures exact { seen string_scan result ≡ string_at bytes.now }
{
    let (size, taken) = size_at(bytes)?;
    let end = taken + size as usize;
    if bytes.len() < end {
        return Err(fault_at(bytes.len(), Reason::Truncated));
    }
    Ok((&bytes[taken..end], end))
}

/// A signed number of 16 bits behind so many bytes.
#[inline(always)]
pub fn id_behind(bytes: &[u8], at: usize) -> Result<(i16, usize), Fault>
    requires { at ≤ length bytes.now }
    ensures within { IsWithin (length bytes.now) result }
    ensures exact { result ≡ shifted at (id_at (drop at bytes.now)) }
{
    match id_at(&bytes[at..]) {
        Ok((id, taken)) => Ok((id, at + taken)),
        Err(f) => Err(fault_at(at + f.place, f.reason)),
    }
}

/// A size or length behind so many bytes.
#[inline(always)]
pub fn size_behind(bytes: &[u8], at: usize) -> Result<(u32, usize), Fault>
    requires { at ≤ length bytes.now }
    ensures within { IsWithin (length bytes.now) result }
    ensures exact { result ≡ shifted at (size_at (drop at bytes.now)) }
{
    match size_at(&bytes[at..]) {
        Ok((size, taken)) => Ok((size, at + taken)),
        Err(f) => Err(fault_at(at + f.place, f.reason)),
    }
}

/// A varint of 32 bits behind so many bytes.
pub fn varint32_behind(bytes: &[u8], at: usize) -> Result<(u32, usize), Fault>
    requires { at ≤ length bytes.now }
    ensures within { IsWithin (length bytes.now) result }
    ensures exact { result ≡ shifted at (varint32_at (drop at bytes.now)) }
{
    match varint32_at(&bytes[at..]) {
        Ok((number, taken)) => Ok((number, at + taken)),
        Err(f) => Err(fault_at(at + f.place, f.reason)),
    }
}

/// A string behind so many bytes.
pub fn string_behind(bytes: &[u8], at: usize) -> Result<(&[u8], usize), Fault>
    requires { at ≤ length bytes.now }
    ensures within { IsWithin (length bytes.now) result }
    ensures exact { seen string_scan result ≡ shifted at (string_at (drop at bytes.now)) }
{
    match string_at(&bytes[at..]) {
        Ok((text, taken)) => Ok((text, at + taken)),
        Err(f) => Err(fault_at(at + f.place, f.reason)),
    }
}
