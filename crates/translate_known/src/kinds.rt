//! Kinds of containers, and what announces lists and sets.
ghost use Rattle.std.specs.Prelude.{◌≡◌, ℤ, IfSome};
ghost use Rattle.thrift_value.specs.declared.kind.Kind.{Kind};
ghost use Rattle.thrift_value.specs.Items.{field};
ghost use Rattle.protocol_traits.specs.declared.forms.Container.{Container};
ghost use Rattle.protocol_traits.specs.Forms.{container_kind, lead_item};

use protocol_traits::{Container, Lead};
use thrift_value::Kind;

/// The kind of a container.
#[inline(always)]
pub fn container_kind(container: Container) -> Kind
    ensures kind { result ≡ container_kind container }
    ensures apart { result ≡ Kind.Bool → ⊥ }
{
    match container {
        Container::Map => Kind::Map,
        Container::Set => Kind::Set,
        Container::List => Kind::List,
    }
}

/// What a lead announces that announces a list or set.
#[inline(always)]
pub fn sequence_of(lead: Lead) -> Option<Container>
    ensures no_map { IfSome result (λ container. container ≡ Container.Map → ⊥) }
    ensures item { IfSome result (λ container. (id : ℤ) → lead_item lead id ≡ field id (container_kind container)) }
{
    match lead {
        Lead::Set => Some(Container::Set),
        Lead::List => Some(Container::List),
        _ => None,
    }
}

/// Which container a kind is that is a list's or set's.
#[inline(always)]
pub fn sequence_kind(kind: Kind) -> Option<Container>
    ensures no_map { IfSome result (λ container. container ≡ Container.Map → ⊥) }
    ensures kind { IfSome result (λ container. kind ≡ container_kind container) }
{
    match kind {
        Kind::Set => Some(Container::Set),
        Kind::List => Some(Container::List),
        _ => None,
    }
}
