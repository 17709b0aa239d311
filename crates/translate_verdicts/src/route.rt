//! Which struct a message's body is.
ghost use Rattle.std.specs.Prelude.{◌≡◌, ◌<◌, IfSome, length};
ghost use Rattle.protocol_traits.specs.Heads.{header_of};
ghost use Rattle.type_tables.specs.Known.{IsKnownMethod};
ghost use Rattle.translate_verdicts.specs.Routes.{IsKnownRoute, args_of, result_of, body_by, body_of, info_of};

use crate::verdict::HeadInfo;
use multiplex_names::find;
use protocol_traits::Head;
use thrift_value::MessageType;
use type_tables::{MethodInfo, Schema, ServiceId, StructId};

/// How the type of a message's body is found. What it names is of the schema that it is handed with.
#[derive(Clone, Copy)]
pub enum Route {
    /// By the method that the message's name means. Names without a service before them are those of this service.
    ByName(Option<ServiceId>),
    /// As the reply to a call whose results are this struct, where they are known. The reply's own name says nothing.
    Answer(Option<StructId>),
}

/// What a header says of its message.
#[derive(Clone, Copy)]
pub struct Told {
    pub info: HeadInfo,
    /// The struct of the body, where it is known.
    pub body: Option<StructId>,
}

/// What a header says of its message: its name is looked up once.
#[inline(always)]
#[tactic(auto, unfolding(crate::specs::Routes::info_of))]
pub fn told_of(schema: &Schema, route: Route, head: &Head<'_>) -> Told
    requires { IsKnownRoute schema.now route }
    ensures info { result.info ≡ info_of schema.now route (header_of head.now) }
    ensures body { result.body ≡ body_of schema.now route (header_of head.now) }
    ensures known { IfSome result.body (λ s. s.0 < length schema.now.structs) }
{
    match route {
        Route::ByName(service) => {
            let method = find(schema, service, head.name);
            Told {
                info: info_of(head, method),
                body: body_by(schema, method, result_of(method), head.mtype),
            }
        }
        Route::Answer(reply) => Told {
            info: info_of(head, None),
            body: body_of_answer(schema, reply, head),
        },
    }
}

/// The struct of a message's body, where it is known.
pub fn body_struct(schema: &Schema, route: Route, head: &Head<'_>) -> Option<StructId>
    requires { IsKnownRoute schema.now route }
    ensures value { result ≡ body_of schema.now route (header_of head.now) }
    ensures known { IfSome result (λ s. s.0 < length schema.now.structs) }
{
    told_of(schema, route, head).body
}

fn info_of(head: &Head<'_>, method: Option<MethodInfo>) -> HeadInfo
    ensures { result ≡ record { mtype = head.now.mtype; seq = head.now.seq; method = method } }
{
    HeadInfo {
        mtype: head.mtype,
        seq: head.seq,
        method,
    }
}

/// The body of what came as an answer: only a call's name is looked up.
#[inline]
fn body_of_answer(schema: &Schema, reply: Option<StructId>, head: &Head<'_>) -> Option<StructId>
    requires { IsKnownRoute schema.now (Route.Answer reply) }
    ensures value { result ≡ body_of schema.now (Route.Answer reply) (header_of head.now) }
    ensures known { IfSome result (λ s. s.0 < length schema.now.structs) }
{
    match head.mtype {
        MessageType::Call | MessageType::Oneway => args_of(find(schema, None, head.name)),
        MessageType::Reply | MessageType::Exception => body_by(schema, None, reply, head.mtype),
    }
}

fn body_by(
    schema: &Schema,
    method: Option<MethodInfo>,
    reply: Option<StructId>,
    mtype: MessageType,
) -> Option<StructId>
    requires method { IfSome method (IsKnownMethod schema.now) }
    requires reply { IfSome reply (λ s. s.0 < length schema.now.structs) }
    ensures value { result ≡ body_by method reply mtype }
    ensures known { IfSome result (λ s. s.0 < length schema.now.structs) }
{
    // Two of the four kinds are told apart: by a match on all four the compiler makes a jump that can't be foreseen.
    match mtype {
        MessageType::Exception => Some(schema.failure()),
        MessageType::Reply => reply,
        _ => args_of(method),
    }
}

fn args_of(method: Option<MethodInfo>) -> Option<StructId>
    ensures { result ≡ args_of method }
{
    match method {
        Some(method) => Some(method.args),
        None => None,
    }
}

fn result_of(method: Option<MethodInfo>) -> Option<StructId>
    ensures { result ≡ result_of method }
{
    match method {
        Some(method) => Some(method.result),
        None => None,
    }
}
