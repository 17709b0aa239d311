//! The header of a message, in both forms.
ghost use Rattle.std.specs.Prelude.{◌≡◌, ◌≤◌, ◌<◌, drop, length};
ghost use Rattle.protocol_traits.specs.Steps.{seen};
ghost use Rattle.binary_protocol.specs.Scan.{string_scan, string_at, shifted, IsWithin};
ghost use Rattle.binary_protocol.specs.Heads.{header_scan, type_at, seq_at, version_at, strict_at, old_at, head_at, name_place};

use crate::codes::type_of_code;
use crate::scan::{cut, string_at};
use protocol_traits::{Fault, Head, Reason, fault_at};
use thrift_value::MessageType;

/// A header of either form: the first byte tells which.
#[tactic(auto, unfolding(crate::specs::Heads::head_at))]
pub fn head_at(bytes: &[u8]) -> Result<(Head<'_>, usize), Fault>
    ensures within { IsWithin (length bytes.now) result }
    ensures exact { seen header_scan result ≡ head_at bytes.now }
{
    if bytes.is_empty() {
        return Err(cut(bytes));
    }
    if bytes[0] >= 0x80 {
        return strict_at(bytes);
    }
    old_at(bytes)
}

/// Where the name stands in a header.
#[inline(always)]
pub fn name_place(bytes: &[u8]) -> usize
    requires { 0 < length bytes.now }
    ensures { result ≡ name_place bytes.now }
{
    if bytes[0] >= 0x80 { 4 } else { 0 }
}

/// The strict form: version, type, name, sequence number.
#[inline(always)]
#[tactic(auto, unfolding(crate::specs::Heads::strict_at))]
fn strict_at(bytes: &[u8]) -> Result<(Head<'_>, usize), Fault>
    requires { 0 < length bytes.now }
    ensures within { IsWithin (length bytes.now) result }
    ensures exact { seen header_scan result ≡ strict_at bytes.now }
{
    let (mtype, taken) = version_at(bytes)?;
    let (name, taken) = string_behind(bytes, taken)?;
    let (seq, taken) = seq_behind(bytes, taken)?;
    Ok((Head { name, mtype, seq }, taken))
}

/// The old form: name, type, sequence number.
#[tactic(auto, unfolding(crate::specs::Heads::old_at))]
fn old_at(bytes: &[u8]) -> Result<(Head<'_>, usize), Fault>
    ensures within { IsWithin (length bytes.now) result }
    ensures exact { seen header_scan result ≡ old_at bytes.now }
{
    let (name, taken) = string_at(bytes)?;
    let (mtype, taken) = type_behind(bytes, taken)?;
    let (seq, taken) = seq_behind(bytes, taken)?;
    Ok((Head { name, mtype, seq }, taken))
}

/// The version, the unused byte and the type.
#[inline(always)]
#[tactic(auto, unfolding(crate::specs::Heads::version_at))]
fn version_at(bytes: &[u8]) -> Result<(MessageType, usize), Fault>
    requires { 0 < length bytes.now }
    ensures within { IsWithin (length bytes.now) result }
    ensures exact { result ≡ version_at bytes.now }
{
    if bytes[0] != 0x80 {
        return Err(fault_at(0, Reason::BadVersion));
    }
    if bytes.len() < 2 {
        return Err(cut(bytes));
    }
    if bytes[1] != 1 {
        return Err(fault_at(0, Reason::BadVersion));
    }
    if bytes.len() < 4 {
        return Err(cut(bytes));
    }
    type_behind(bytes, 3)
}

#[inline(always)]
#[tactic(auto, unfolding(crate::specs::Heads::type_at))]
fn type_behind(bytes: &[u8], at: usize) -> Result<(MessageType, usize), Fault>
    requires { at ≤ length bytes.now }
    ensures within { IsWithin (length bytes.now) result }
    ensures exact { result ≡ shifted at (type_at (drop at bytes.now)) }
{
    match type_at(&bytes[at..]) {
        Ok((mtype, taken)) => Ok((mtype, at + taken)),
        Err(f) => Err(fault_at(at + f.place, f.reason)),
    }
}

/// The message type: one byte.
#[inline(always)]
#[tactic(auto, unfolding(crate::specs::Heads::type_at))]
fn type_at(bytes: &[u8]) -> Result<(MessageType, usize), Fault>
    ensures within { IsWithin (length bytes.now) result }
    ensures exact { result ≡ type_at bytes.now }
{
    if bytes.is_empty() {
        return Err(cut(bytes));
    }
    match type_of_code(bytes[0]) {
        Some(mtype) => Ok((mtype, 1)),
        None => Err(fault_at(0, Reason::BadType)),
    }
}

#[inline(always)]
fn string_behind(bytes: &[u8], at: usize) -> Result<(&[u8], usize), Fault>
    requires { at ≤ length bytes.now }
    ensures within { IsWithin (length bytes.now) result }
    ensures exact { seen string_scan result ≡ shifted at (string_at (drop at bytes.now)) }
{
    match string_at(&bytes[at..]) {
        Ok((text, taken)) => Ok((text, at + taken)),
        Err(f) => Err(fault_at(at + f.place, f.reason)),
    }
}

#[inline(always)]
fn seq_behind(bytes: &[u8], at: usize) -> Result<(i32, usize), Fault>
    requires { at ≤ length bytes.now }
    ensures within { IsWithin (length bytes.now) result }
    ensures exact { result ≡ shifted at (seq_at (drop at bytes.now)) }
{
    match seq_at(&bytes[at..]) {
        Ok((seq, taken)) => Ok((seq, at + taken)),
        Err(f) => Err(fault_at(at + f.place, f.reason)),
    }
}

/// The sequence number.
#[inline(always)]
#[tactic(auto, unfolding(crate::specs::Heads::seq_at))]
fn seq_at(bytes: &[u8]) -> Result<(i32, usize), Fault>
    ensures within { IsWithin (length bytes.now) result }
    ensures exact { result ≡ seq_at bytes.now }
{
    if bytes.len() < 4 {
        return Err(cut(bytes));
    }
    let seq = i32::from_be_bytes([bytes[0], bytes[1], bytes[2], bytes[3]]);
    Ok((seq, 4))
}
