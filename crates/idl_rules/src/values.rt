//! The numbers of an enum's members.
ghost use Rattle.std.specs.Prelude.{◌≡◌};
ghost use Rattle.idl_rules.specs.Order.{lesser, least_of};
ghost use Rattle.idl_rules.specs.Values.{value_by, number_after, is_outside, value_refusals};

use crate::least::Least;
use crate::row::IdlRow;
use idl_document::Member;

/// The number of a member, where one that has none gets this one.
pub fn member_value(next: i64, member: &Member) -> i64
    ensures { result ≡ value_by member.now.value next }
{
    match member.value {
        Some(value) => value,
        None => next,
    }
}

/// The number of the next member, if it has none. So far out that 64 bits end it stays where it is; such a number is
/// refused anyway.
pub fn number_after(value: i64) -> i64
    ensures { result ≡ number_after value }
{
    if value < i64::MAX { value + 1 } else { value }
}

fn is_outside(value: i64) -> bool
    ensures { result ≡ is_outside value }
{
    value < -2147483648 || 2147483647 < value
}

/// Notes each member whose number has more than 32 bits.
pub(crate) fn check_values(members: &[Member], least: &mut Least)
    ensures { least.new ≡ lesser least.old (least_of (value_refusals members.now)) }
{
    let mut next = 0i64;
    for member in members {
        let value = member_value(next, member);
        least.note_when(
            is_outside(value),
            member.name.at,
            IdlRow::EnumValueOutOfRange,
        );
        next = number_after(value);
    }
}
