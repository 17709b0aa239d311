//! That what a client sends is cut into POSTs and a tail, whatever it is.
//!
//! The proof is by reading the heads: the functions look at bytes, and answer nothing that a caller would need.
ghost use Rattle.std.specs.Prelude.{◌≡◌, length, None, IfSome};
ghost use Rattle.http_front.specs.Posts.{IsCut, IsFirstPost};

use crate::head::{HEAD_LIMIT, Head, MOST_FIELDS, find_head, refuses};
use crate::look::{Look, look_on};
use httparse::spans::HeaderSpan;

/// All bytes are cut into POSTs, whose bodies have at most `limit` bytes, and a tail.
pub fn a_stream_is_cut(bytes: &[u8], fields: &mut [HeaderSpan], limit: usize)
    requires { length fields.old ≡ MOST_FIELDS }
    ensures { IsCut limit bytes.now }
{
    let mut at = 0;
    'posts: while let Some(size) = first_post(&bytes[at..], fields, limit) {
        at += size;
    }
}

/// The bytes of the POST with which these begin, where it is whole and another one may follow.
fn first_post(bytes: &[u8], fields: &mut [HeaderSpan], limit: usize) -> Option<usize>
    requires { length fields.old ≡ MOST_FIELDS }
    ensures some { IfSome result (IsFirstPost limit bytes.now) }
    ensures none { result ≡ None → IsCut limit bytes.now }
{
    let look = look_on(Look::Before, &bytes[..bytes.len().min(HEAD_LIMIT)]);
    match find_head(bytes, look, fields, limit) {
        Head::Part => {
            let _ = refuses(bytes, fields);
            None
        }
        Head::Bad => None,
        Head::Post { size, body, last } if !last && body <= bytes.len() - size => Some(size + body),
        Head::Post { .. } => None,
    }
}
