//! What may be found of a message.
use crate::step::Step;
use protocol_traits::Fault;

/// How a message breaks what is declared of it.
#[derive(Clone, Copy)]
pub enum Breach {
    /// No method has its name, so its body isn't declared. It stands at the empty path.
    UnknownMethod,
    /// A field whose id its struct doesn't declare. The id is the last step of its path.
    UnknownField,
    /// A field whose value has another kind than the declared type, with its id as the last step; or a container whose parts have
    /// other kinds than the declared ones, at its own path.
    WrongKind,
    /// A second field of one id in one struct. The id is the last step of its path.
    Repeated,
    /// A struct lacks a field that is declared `required`; that field's id is the last step of its path.
    Missing,
    /// A union has another number of fields than one. It stands at the union's path.
    Union,
    /// A number that is no member of its enum.
    NotMember,
    /// A `string` that isn't UTF-8.
    NotText,
}

/// What was found of a frame.
#[derive(Clone, Copy)]
pub enum Checked {
    /// It is a message, and meets what is declared of it.
    Meets,
    /// It is a message, and this is the first way in which it breaks what is declared.
    Broken(Breach),
    /// Its header was read, and this fault stands in what follows.
    Refused(Fault),
    /// No front of it is a whole header.
    Unread(Fault),
}

/// A breach in the innermost open struct or container: at one more step, or of the struct itself.
#[derive(Clone, Copy)]
pub(crate) struct Found {
    pub(crate) breach: Breach,
    pub(crate) last: Option<Step>,
}
