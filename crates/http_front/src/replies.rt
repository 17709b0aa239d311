//! Which response a body gets, and the head of a response.
ghost use Rattle.std.specs.Prelude.{◌≡◌, ◌+◌, ◌≤◌, ◌<◌, ◌^◌, ◌++◌, length, IfSome};
ghost use Rattle.type_tables.specs.Declarations.{Declarations};
ghost use Rattle.http_front.specs.Replies.{reply_to, reply_for, reply_by, reply_to_call, response_head};

use binary_protocol::BinaryRead;
use compact_protocol::CompactRead;
use gate_io::Out;
use itoa::Buffer;
use json_protocol::JsonRead;
use multiplex_names::find;
use protocol_traits::{Proto, WireRead};
use std::marker::Model;
use thrift_value::MessageType;
use type_tables::{MethodInfo, Schema, ServiceId};

/// What begins each response, up to the number of bytes of its content.
const RESPONSE_START: &[u8] =
    b"HTTP/1.1 200 OK\r\nContent-Type: application/x-thrift\r\nContent-Length: ";

/// What ends the head of each response.
const RESPONSE_END: &[u8] = b"\r\n\r\n";

/// The bytes of the head of a response at the most.
pub(crate) const RESPONSE_HEAD_ROOM: usize = 128;

/// The response that a body gets.
#[derive(Clone, Copy)]
pub(crate) enum Reply {
    /// With the next message that is written to the client.
    Answer,
    /// Without content.
    Empty,
    /// None: the body ends the session.
    Missing,
}

/// How the bodies of a client are read: its declarations, the service whose names need no prefix, its protocol, and the bytes of a
/// body at the most.
#[derive(Drop)]
pub(crate) struct Rules<'h> {
    schema: &'h Schema,
    service: Option<ServiceId>,
    client: Proto,
    limit: usize,
}

impl<'h> Model for Rules<'h> {
    ghost use Rattle.std.specs.Prelude.{◌<◌, ◌^◌, length, IfSome};
    ghost use Rattle.http_front.specs.Fronts.{Reading};

    ghost Value = { Reading };

    ghost view = { λ r. record { declared = r.schema.now; service = r.service; client = r.client; limit = r.limit } };

    ghost invariant = { λ r. IfSome r.service (λ s. s.0 < length r.schema.now.services) × (r.limit < 2 ^ 31) };
}

impl<'h> Rules<'h> {
    pub(crate) fn new(
        schema: &'h Schema,
        service: Option<ServiceId>,
        client: Proto,
        limit: usize,
    ) -> Rules<'h>
        requires service { IfSome service (λ s. s.0 < length schema.now.services) }
        requires limit { limit < 2 ^ 31 }
        ensures { result ≡ record { declared = schema.now; service = service; client = client; limit = limit } }
    {
        Rules {
            schema,
            service,
            client,
            limit,
        }
    }

    /// The bytes of a body at the most.
    pub(crate) fn limit(&self) -> usize
        ensures value { result ≡ self.now.limit }
        ensures small { self.now.limit < 2 ^ 31 }
    {
        self.limit
    }

    /// The response that a body gets. `room` has at least as many bytes as the body.
    #[tactic(auto, unfolding(crate::specs::Replies::reply_to))]
    pub(crate) fn reply_to(&self, body: &[u8], room: &mut [u8]) -> Reply
        requires room { length body.now ≤ length room.old }
        requires size { length body.now < 2 ^ 31 }
        ensures { result ≡ reply_to self.now.declared self.now.service self.now.client body.now }
    {
        match self.client {
            Proto::Binary => reply_for::<BinaryRead>(self.schema, self.service, body, room),
            Proto::Compact => reply_for::<CompactRead>(self.schema, self.service, body, room),
            Proto::Json => reply_for::<JsonRead>(self.schema, self.service, body, room),
        }
    }
}

/// The response that a body gets, by the reader of its protocol.
fn reply_for<'f, R: WireRead<'f>>(
    schema: &Schema,
    service: Option<ServiceId>,
    body: &'f [u8],
    room: &'f mut [u8],
) -> Reply
    requires service { IfSome service (λ s. s.0 < length schema.now.services) }
    requires room { length body.now ≤ length room.old }
    requires size { length body.now < 2 ^ 31 }
    ensures { result ≡ reply_for schema.now service (R.reads_head (R.begun body.now)) }
{
    let mut reader = R::over(body, room);
    match reader.head() {
        Ok(head) => reply_by(find(schema, service, head.name), head.mtype),
        Err(_) => Reply::Missing,
    }
}

fn reply_by(method: Option<MethodInfo>, mtype: MessageType) -> Reply
    ensures { result ≡ reply_by method mtype }
{
    match mtype {
        MessageType::Call => reply_to_call(method),
        MessageType::Oneway => Reply::Empty,
        MessageType::Reply | MessageType::Exception => Reply::Missing,
    }
}

fn reply_to_call(method: Option<MethodInfo>) -> Reply
    ensures { result ≡ reply_to_call method }
{
    match method {
        Some(method) if method.oneway => Reply::Empty,
        _ => Reply::Answer,
    }
}

/// Appends the head of a response with so many bytes of content.
#[tactic(auto, unfolding(crate::specs::Replies::response_head))]
pub(crate) fn push_response_head(out: &mut Out, size: u32)
    requires { length out.old.bytes + RESPONSE_HEAD_ROOM ≤ out.old.room }
    ensures text { out.new ≡ record out.old { bytes = out.old.bytes ++ response_head size } }
    ensures short { length (response_head size) ≤ RESPONSE_HEAD_ROOM }
    ensures some { 0 < length (response_head size) }
{
    let mut digits = Buffer::new();
    out.push(RESPONSE_START);
    out.push(digits.format(size).as_bytes());
    out.push(RESPONSE_END);
}
