//! The head of a request.
ghost use Rattle.std.specs.Prelude.{◌≡◌, ◌≤◌, length, take, map, All, true, false};
ghost use Rattle.httparse.specs.Grammar.{RequestHead, HasNoRequest, NeverHasRequest, MayBecomeRequest};
ghost use Rattle.httparse.specs.Spans.{IsHeaderWithin, IsRequestWithin, IsRequestAt, header_bytes, span_bytes};
ghost use Rattle.http_front.specs.Heads.{head_limit, body_by, ends_by};
ghost use Rattle.http_front.specs.Looking.{looked};
ghost use Rattle.http_front.specs.Reading.{ReadsHead, ReadsFront, FindsHead, part_of};

use crate::fields::{Values, length_within, tells, values_of};
use crate::look::Look;
use httparse::Status;
use httparse::spans::{HeaderSpan, RequestSpans, parse_request};

/// The bytes of a head at the most.
pub(crate) const HEAD_LIMIT: usize = 8192;

/// So many fields are more than a head of that length has.
pub const MOST_FIELDS: usize = 4096;

/// What stands at the front of the bytes.
#[derive(Clone, Copy)]
pub(crate) enum Head {
    /// The beginning of a head.
    Part,
    /// No head of a POST with a length, whatever follows.
    Bad,
    /// A head of so many bytes, the length of the body behind it, and whether the connection ends behind that.
    Post {
        size: usize,
        body: usize,
        last: bool,
    },
}

/// Reads the head at the front of these bytes, for bodies of at most `limit` bytes.
#[tactic(auto, using(crate::proofs::Heads::refused_never))]
fn read_head(bytes: &[u8], fields: &mut [HeaderSpan], limit: usize) -> Head
    requires short { length bytes.now ≤ head_limit }
    requires room { length fields.old ≡ MOST_FIELDS }
    ensures { ReadsHead limit bytes.now result }
{
    match parse_request(bytes, fields) {
        Ok(Status::Complete(spans)) => judge(bytes, fields, &spans, limit),
        Ok(Status::Partial) => Head::Part,
        Err(_) => Head::Bad,
    }
}

/// What stands at the front of these bytes, in whose first ones the end of a head was looked for.
pub(crate) fn find_head(bytes: &[u8], look: Look, fields: &mut [HeaderSpan], limit: usize) -> Head
    requires look { look ≡ looked Look.Before (take head_limit bytes.now) }
    requires room { length fields.old ≡ MOST_FIELDS }
    ensures { FindsHead limit bytes.now result }
{
    let window = &bytes[..bytes.len().min(HEAD_LIMIT)];
    match read_if_whole(window, look, fields, limit) {
        Head::Part => part_of(window.len()),
        Head::Bad => Head::Bad,
        Head::Post { size, body, last } => Head::Post { size, body, last },
    }
}

/// So many bytes without a whole head: the beginning of one, or too many.
fn part_of(size: usize) -> Head
    ensures { result ≡ part_of size }
{
    if size == HEAD_LIMIT {
        return Head::Bad;
    }
    Head::Part
}

/// Reads the head at the front of these bytes, where it may be whole.
#[tactic(auto, using(crate::proofs::Looks::none_whole))]
fn read_if_whole(bytes: &[u8], look: Look, fields: &mut [HeaderSpan], limit: usize) -> Head
    requires short { length bytes.now ≤ head_limit }
    requires look { look ≡ looked Look.Before bytes.now }
    requires room { length fields.old ≡ MOST_FIELDS }
    ensures { ReadsFront limit bytes.now result }
{
    match look {
        Look::Whole => read_head(bytes, fields, limit),
        Look::Before | Look::Line | Look::Ended | Look::Return => Head::Part,
    }
}

/// Judges a whole head.
#[tactic(auto, using(crate::proofs::Heads::judged_bad, crate::proofs::Heads::judged_post))]
fn judge(bytes: &[u8], fields: &[HeaderSpan], spans: &RequestSpans, limit: usize) -> Head
    requires within { IsRequestWithin bytes.now fields.now spans.now }
    requires is { (head : RequestHead) × IsRequestAt bytes.now fields.now spans.now head }
    ensures { ReadsHead limit bytes.now result }
{
    let fields = &fields[..spans.headers];
    match body_length(bytes, spans.method.of(bytes), fields, limit) {
        Some(body) => Head::Post {
            size: spans.len,
            body,
            last: is_last(bytes, spans.version, fields),
        },
        None => Head::Bad,
    }
}

/// The length of the body, where a head with this method and these fields is good.
fn body_length(bytes: &[u8], method: &[u8], fields: &[HeaderSpan], limit: usize) -> Option<usize>
    requires { All (IsHeaderWithin (length bytes.now)) fields.now }
    ensures { result ≡ body_by limit method.now (map (header_bytes bytes.now) fields.now) }
{
    if method != b"POST".as_slice() {
        return None;
    }
    let Values::Absent = values_of(bytes, fields, b"transfer-encoding") else {
        return None;
    };
    match values_of(bytes, fields, b"content-length") {
        Values::One(digits) => length_within(digits, limit),
        Values::Absent | Values::Several => None,
    }
}

/// Whether the connection ends behind the response.
fn is_last(bytes: &[u8], minor: u8, fields: &[HeaderSpan]) -> bool
    requires { All (IsHeaderWithin (length bytes.now)) fields.now }
    ensures { result ≡ ends_by minor (map (header_bytes bytes.now) fields.now) }
{
    minor == 0 || tells(bytes, fields, b"connection", b"close")
}

/// Whether no head can come of these bytes, whatever follows.
#[tactic(auto, using(crate::proofs::Heads::refused_never))]
pub(crate) fn refuses(bytes: &[u8], fields: &mut [HeaderSpan]) -> bool
    requires short { length bytes.now ≤ head_limit }
    requires room { length fields.old ≡ MOST_FIELDS }
    ensures never { result ≡ true → NeverHasRequest bytes.now }
    ensures open { result ≡ false → HasNoRequest bytes.now → MayBecomeRequest bytes.now }
{
    match parse_request(bytes, fields) {
        Ok(_) => false,
        Err(_) => true,
    }
}
