//! The text of each breach, as reports print it.
ghost use Rattle.std.specs.Prelude.{◌≡◌, ◌≤◌, length};
ghost use Rattle.conform_check.specs.Texts.{breach_text};

use crate::breach::Breach;

/// The text of a breach.
#[tactic(auto, unfolding(crate::specs::Texts::breach_text))]
pub fn breach_text(breach: Breach) -> &'static [u8]
    ensures text { result.now ≡ breach_text breach }
    ensures short { length result.now ≤ 17 }
{
    match breach {
        Breach::UnknownMethod => b"M1 unknown method",
        Breach::UnknownField => b"M2 unknown field",
        Breach::WrongKind => b"M3 wrong kind",
        Breach::Repeated => b"M4 repeated field",
        Breach::Missing => b"M5 missing field",
        Breach::Union => b"M6 union",
        Breach::NotMember => b"M7 not a member",
        Breach::NotText => b"M8 not UTF-8",
    }
}
