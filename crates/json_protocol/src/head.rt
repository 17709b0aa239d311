//! The header and the end of a message.
ghost use Rattle.std.specs.Prelude.{◌≡◌, ◌+◌, ◌-◌, ◌≤◌, ◌<◌, ◌≤ℤ◌, length, drop, pos, false, slice_index, Ok, IfOk, IfSome};
ghost use Rattle.json_text.specs.Scan.{is_white};
ghost use Rattle.json_text.specs.Text.{text_at};
ghost use Rattle.json_text.specs.declared.scanned.Scan.TheVariants.{Whole};
ghost use Rattle.protocol_traits.specs.Steps.{seen};
ghost use Rattle.json_protocol.specs.Scan.{IsWithin, Keeps, further, shifted, string_scan};
ghost use Rattle.json_protocol.specs.Words.{int_in, text_in};
ghost use Rattle.protocol_traits.specs.Heads.{header_of};
ghost use Rattle.json_protocol.specs.ReadForms.{HeadFound};
ghost use Rattle.json_protocol.specs.Head.{type_of, front_at, back_at, head_at, head_scan, end_scan};

use crate::places::behind_mark;
use crate::room::Room;
use crate::scan::{gap_from, mark_from};
use crate::word::int_in;
use json_text::{Scan, plain_int, plain_text, read_text};
use protocol_traits::{Fault, Head, Reason, fault_at};
use thrift_value::MessageType;

fn int_from(
    reason: Reason,
    low: i64,
    high: i64,
    bytes: &[u8],
    at: usize,
) -> Result<(i64, usize), Fault>
    requires place { at ≤ length bytes.now }
    requires range { (low ≤ℤ pos 1) × (pos 0 ≤ℤ high) }
    ensures within { IsWithin (length bytes.now) result }
    ensures range { IfOk result (λ x. (low ≤ℤ x.0) × (x.0 ≤ℤ high)) }
    ensures onward { IfOk result (λ x. at ≤ x.1) }
    ensures exact { result ≡ further at (int_in reason low high) bytes.now }
{
    let at = gap_from(bytes, at);
    match int_in(reason, low, high, &bytes[at..]) {
        Ok((value, taken)) => Ok((value, at + taken)),
        Err(f) => Err(fault_at(at + f.place, f.reason)),
    }
}

fn type_of(code: i64) -> MessageType
    ensures { result ≡ type_of code }
{
    match code {
        1 => MessageType::Call,
        2 => MessageType::Reply,
        3 => MessageType::Exception,
        _ => MessageType::Oneway,
    }
}

/// Up to the name's quote.
#[tactic(auto, unfolding(crate::specs::Head::front_at))]
fn front_at(bytes: &[u8]) -> Result<((), usize), Fault>
    ensures within { IsWithin (length bytes.now) result }
    ensures exact { result ≡ front_at bytes.now }
{
    let (_, taken) = mark_from(b'[', bytes, 0)?;
    let (_, taken) = int_from(Reason::BadVersion, 1, 1, bytes, taken)?;
    let (_, taken) = mark_from(b',', bytes, taken)?;
    Ok(((), gap_from(bytes, taken)))
}

/// Behind the name.
#[tactic(auto, unfolding(crate::specs::Head::back_at))]
fn back_at(bytes: &[u8], name: usize) -> Result<((MessageType, i32), usize), Fault>
    requires { name ≤ length bytes.now }
    ensures within { IsWithin (length bytes.now) result }
    ensures onward { IfOk result (λ x. name ≤ x.1) }
    ensures exact { result ≡ back_at name bytes.now }
{
    let (_, taken) = mark_from(b',', bytes, name)?;
    let (code, taken) = int_from(Reason::BadType, 1, 4, bytes, taken)?;
    let (_, taken) = mark_from(b',', bytes, taken)?;
    let (seq, taken) = int_from(Reason::BadNumber, -2147483648, 2147483647, bytes, taken)?;
    let (_, taken) = mark_from(b',', bytes, taken)?;
    Ok(((type_of(code), seq as i32), taken))
}

fn name_from<'f>(
    bytes: &'f [u8],
    at: usize,
    room: &mut Room<'f>,
) -> Result<(&'f [u8], usize), Fault>
    requires place { at ≤ length bytes.now }
    requires room { length bytes.now ≤ room.old }
    ensures within { IsWithin (length bytes.now) result }
    ensures exact { seen string_scan result ≡ shifted at (text_in (drop at bytes.now)) }
    ensures room { Keeps (length bytes.now) room.old room.new result }
{
    match room.text(&bytes[at..]) {
        Ok((text, taken)) => Ok((text, at + taken)),
        Err(f) => Err(fault_at(at + f.place, f.reason)),
    }
}

/// The header, with the place of its name.
#[tactic(auto, unfolding(crate::specs::Head::head_at))]
pub fn head_at<'f>(
    bytes: &'f [u8],
    room: &mut Room<'f>,
) -> Result<((Head<'f>, usize), usize), Fault>
    requires { length bytes.now ≤ room.old }
    ensures within { IsWithin (length bytes.now) result }
    ensures exact { seen head_scan result ≡ head_at bytes.now }
    ensures room { IfOk result (λ x. length bytes.now ≤ room.new + x.1) }
    ensures start { IfOk result (λ x. x.0.1 ≤ length bytes.now) }
{
    let (_, start) = front_at(bytes)?;
    let (name, taken) = name_from(bytes, start, room)?;
    let ((mtype, seq), taken) = back_at(bytes, taken)?;
    Ok(((Head { name, mtype, seq }, start), taken))
}

/// The header in its plain spelling, where a byte stands behind it. A name that has an escape is decoded into the room.
#[inline(always)]
pub fn front_of<'f>(frame: &'f [u8], room: &'f mut [u8]) -> Option<(Head<'f>, usize)>
    requires { length frame.now ≤ length room.old }
    ensures { IfSome result (λ x. HeadFound frame.now (header_of x.0) x.1) }
{
    let start = name_place(frame)?;
    let (name, stop) = name_word(frame, start, room)?;
    let ((mtype, seq), behind) = behind_name(frame, stop)?;
    Some((Head { name, mtype, seq }, behind))
}

/// The place of the name, behind the bracket and the version.
#[inline(always)]
fn name_place(frame: &[u8]) -> Option<usize>
    ensures place { IfSome result (λ x. x < length frame.now) }
    ensures found { IfSome result (λ x. is_white (slice_index frame.now x) ≡ false → front_at frame.now ≡ Ok (tt, x)) }
{
    let version = behind_mark(frame, 0, b'[')?;
    let (value, end) = plain_int(frame, version)?;
    if value != 1 {
        return None;
    }
    let start = behind_mark(frame, end, b',')?;
    Some(start)
}

/// A name and the place behind its quote: lent from the frame where it has no escape, else decoded into the room.
#[inline(always)]
fn name_word<'f>(frame: &'f [u8], at: usize, room: &'f mut [u8]) -> Option<(&'f [u8], usize)>
    requires place { at < length frame.now }
    requires room { length frame.now ≤ length room.old }
    ensures begins { IfSome result (λ x. slice_index frame.now at ≡ 34) }
    ensures within { IfSome result (λ x. x.1 ≤ length frame.now) }
    ensures shorter { IfSome result (λ x. length x.0.now + at + 2 ≤ x.1) }
    ensures found { IfSome result (λ x. text_at (drop at frame.now) ≡ Whole x.0.now (x.1 - at)) }
{
    match plain_text(frame, at) {
        Some(stop) => Some((&frame[at + 1..stop], stop + 1)),
        None => escaped_name(frame, at, room),
    }
}

/// A name that has an escape, decoded into the room. In a function of its own, so that the plain name stays quick.
#[inline(never)]
fn escaped_name<'f>(frame: &[u8], at: usize, room: &'f mut [u8]) -> Option<(&'f [u8], usize)>
    requires place { at < length frame.now }
    requires room { length frame.now ≤ length room.old }
    ensures begins { IfSome result (λ x. slice_index frame.now at ≡ 34) }
    ensures within { IfSome result (λ x. x.1 ≤ length frame.now) }
    ensures shorter { IfSome result (λ x. length x.0.now + at + 2 ≤ x.1) }
    ensures found { IfSome result (λ x. text_at (drop at frame.now) ≡ Whole x.0.now (x.1 - at)) }
{
    if frame[at] != b'"' {
        return None;
    }
    match read_text(frame, at, &mut *room) {
        Scan::Whole(size, stop) => Some((&room[..size], stop)),
        Scan::Short | Scan::Bad(_) => None,
    }
}

/// The type and the number behind a name, with their commas.
#[inline(always)]
fn behind_name(frame: &[u8], at: usize) -> Option<((MessageType, i32), usize)>
    requires { at ≤ length frame.now }
    ensures within { IfSome result (λ x. (at ≤ x.1) × (x.1 < length frame.now)) }
    ensures found { IfSome result (λ x. back_at at frame.now ≡ Ok x) }
{
    let code = behind_mark(frame, at, b',')?;
    let (kind, end) = plain_int(frame, code)?;
    if kind < 1 || kind > 4 {
        return None;
    }
    let number = behind_mark(frame, end, b',')?;
    let (seq, end) = plain_int(frame, number)?;
    if seq < -2147483648 || seq > 2147483647 {
        return None;
    }
    let behind = behind_mark(frame, end, b',')?;
    Some(((type_of(kind), seq as i32), behind))
}

/// The closing bracket, and only whitespace behind it.
#[tactic(auto, unfolding(crate::specs::Head::end_scan))]
pub fn end_scan(bytes: &[u8]) -> Result<((), usize), Fault>
    ensures within { IsWithin (length bytes.now) result }
    ensures exact { result ≡ end_scan bytes.now }
{
    let (_, taken) = mark_from(b']', bytes, 0)?;
    let at = gap_from(bytes, taken);
    if at == bytes.len() {
        return Ok(((), at));
    }
    Err(fault_at(at, Reason::Trailing))
}
