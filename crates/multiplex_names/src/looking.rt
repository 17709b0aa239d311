//! The method that a name means.
ghost use Rattle.std.specs.Prelude.{◌≡◌, ◌<◌, IfSome, length, option_copied};
ghost use Rattle.type_tables.specs.Known.{IsKnownMethod};
ghost use Rattle.multiplex_names.specs.Names.{find_in, service_in};

use crate::parts::split;
use type_tables::{MethodInfo, Schema, ServiceId};

/// The method of the service that the name's prefix means, or of `default` where the name has no prefix.
///
/// A prefix that means no service finds nothing. `default` is a service of this schema.
#[inline(always)]
pub fn find(schema: &Schema, default: Option<ServiceId>, name: &[u8]) -> Option<MethodInfo>
    requires { IfSome default (λ s. s.0 < length schema.now.services) }
    ensures value { result ≡ find_in schema.now default name.now }
    ensures known { IfSome result (IsKnownMethod schema.now) }
{
    // Without an IDL no name means a method. So it is not searched for a colon.
    if default.is_none() && !schema.names_services() {
        return None;
    }
    find_by_parts(schema, default, name)
}

// The same, where a name may mean something.
#[tactic(auto, unfolding(crate::specs::Names::find_in))]
fn find_by_parts(schema: &Schema, default: Option<ServiceId>, name: &[u8]) -> Option<MethodInfo>
    requires { IfSome default (λ s. s.0 < length schema.now.services) }
    ensures value { result ≡ find_in schema.now default name.now }
    ensures known { IfSome result (IsKnownMethod schema.now) }
{
    let (prefix, method) = split(name);
    match service_of(schema, default, prefix) {
        Some(service) => schema.method(service, method),
        None => None,
    }
}

// The service that a prefix means, or else this one.
fn service_of(
    schema: &Schema,
    default: Option<ServiceId>,
    prefix: Option<&[u8]>,
) -> Option<ServiceId>
    requires { IfSome default (λ s. s.0 < length schema.now.services) }
    ensures value { result ≡ service_in schema.now default (option_copied prefix.entry) }
    ensures known { IfSome result (λ s. s.0 < length schema.now.services) }
{
    match prefix {
        Some(prefix) => schema.service(prefix),
        None => default,
    }
}
