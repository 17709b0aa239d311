//! The text and the place of each cause.
ghost use Rattle.std.specs.Prelude.{◌≡◌, ◌≤◌, length};
ghost use Rattle.translate_verdicts.specs.Texts.{reason_text, bar_text, cause_text, place_of};

use crate::Cause;
use protocol_traits::{Bar, Reason};

impl Cause {
    /// The text that reports and answers print for it.
    #[tactic(auto, unfolding(crate::specs::Texts::no_route_text))]
    pub fn text(&self) -> &'static [u8]
        ensures text { result.now ≡ cause_text self.now }
        ensures short { length result.now ≤ 17 }
    {
        match self {
            Cause::Grammar(fault) => reason_text(fault.reason),
            Cause::Barred { place: _, bar } => bar_text(*bar),
            Cause::NoRoute => b"V1 no route",
        }
    }

    /// The place in the frame of the first byte of the faulty item or of the barred value; 0 where the cause has no place.
    pub fn place(&self) -> usize
        ensures { result ≡ place_of self.now }
    {
        match self {
            Cause::Grammar(fault) => fault.place,
            Cause::Barred { place, bar: _ } => *place,
            Cause::NoRoute => 0,
        }
    }
}

/// The text of the reason of a fault.
#[tactic(auto, unfolding(crate::specs::Texts::reason_text))]
pub fn reason_text(reason: Reason) -> &'static [u8]
    ensures text { result.now ≡ reason_text reason }
    ensures short { length result.now ≤ 17 }
{
    match reason {
        Reason::Truncated => b"G1 truncated",
        Reason::Trailing => b"G2 trailing bytes",
        Reason::TooDeep => b"G3 too deep",
        Reason::BadKind => b"G4 bad kind",
        Reason::BadBool => b"G5 bad bool",
        Reason::BadSize => b"G6 bad size",
        Reason::BadVersion => b"G7 bad version",
        Reason::BadType => b"G8 bad type",
        Reason::BadVarint => b"G9 bad varint",
        Reason::BadId => b"G10 bad id",
        Reason::BadNumber => b"G11 bad number",
        Reason::BadString => b"G12 bad string",
        Reason::BadBase64 => b"G13 bad base64",
        Reason::BadToken => b"G14 bad token",
    }
}

/// The text of a bar.
#[tactic(auto, unfolding(crate::specs::Texts::bar_text))]
pub fn bar_text(bar: Bar) -> &'static [u8]
    ensures text { result.now ≡ bar_text bar }
    ensures short { length result.now ≤ 17 }
{
    match bar {
        Bar::Double => b"U1 double",
        Bar::UnknownString => b"U2 unknown string",
        Bar::NotUtf8 => b"U3 not UTF-8",
        Bar::Uuid => b"U4 uuid",
    }
}
