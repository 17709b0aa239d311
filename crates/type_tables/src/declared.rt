//! What a schema declares: types, fields, methods, and the numbers of things.
ghost use Rattle.std.specs.Prelude.{◌≡◌};
ghost use Rattle.type_tables.specs.Kinds.{kind_of};

use gate_base::Text;
use thrift_value::Kind;

/// The number of an enum, from 0 in the order of adding.
#[derive(Clone, Copy)]
pub struct EnumId(pub u32);

/// The number of a struct. Number 0 is the built-in TApplicationException.
#[derive(Clone, Copy)]
pub struct StructId(pub u32);

/// The number of a type that is a part of another.
#[derive(Clone, Copy)]
pub struct TyId(pub u32);

/// The number of a service.
#[derive(Clone, Copy)]
pub struct ServiceId(pub u32);

/// A declared type. A typedef stands for its target; `string` is `Text` and `binary` is `Blob`.
#[derive(Clone, Copy)]
pub enum Ty {
    /// No declaration says what stands here.
    Unknown,
    Bool,
    I8,
    I16,
    I32,
    I64,
    Double,
    Text,
    Blob,
    Enum(EnumId),
    Struct(StructId),
    Map(TyId, TyId),
    Set(TyId),
    List(TyId),
    Uuid,
}

impl Ty {
    /// The kind that values of this type travel as: an enum's as `I32`. `Unknown` has none.
    pub fn kind(self) -> Option<Kind>
        ensures { result ≡ kind_of self }
    {
        match self {
            Ty::Unknown => None,
            Ty::Bool => Some(Kind::Bool),
            Ty::I8 => Some(Kind::I8),
            Ty::I16 => Some(Kind::I16),
            Ty::I32 => Some(Kind::I32),
            Ty::I64 => Some(Kind::I64),
            Ty::Double => Some(Kind::Double),
            Ty::Text => Some(Kind::Str),
            Ty::Blob => Some(Kind::Str),
            Ty::Enum(_) => Some(Kind::I32),
            Ty::Struct(_) => Some(Kind::Struct),
            Ty::Map(_, _) => Some(Kind::Map),
            Ty::Set(_) => Some(Kind::Set),
            Ty::List(_) => Some(Kind::List),
            Ty::Uuid => Some(Kind::Uuid),
        }
    }
}

/// What a list of fields is the list of: a declared struct, union or exception, or a method's arguments or results.
#[derive(Clone, Copy)]
pub enum Form {
    Struct,
    Union,
    Exception,
    Args,
    Result,
}

/// Whether a field is asked for.
#[derive(Clone, Copy)]
pub enum Need {
    Required,
    Optional,
    Default,
}

/// A field of a struct.
#[derive(Drop)]
pub struct FieldInfo {
    pub id: i16,
    pub name: Text,
    pub ty: Ty,
    pub need: Need,
}

/// A method of a service: the structs that its arguments and its results travel as, and whether it is answered at all.
#[derive(Clone, Copy)]
pub struct MethodInfo {
    pub args: StructId,
    pub result: StructId,
    pub oneway: bool,
}

/// How many files, structs (with unions and exceptions) and services are declared.
#[derive(Clone, Copy)]
pub struct Counts {
    pub files: u64,
    pub structs: u64,
    pub services: u64,
}

/// Why a thing was not added.
#[derive(Clone, Copy)]
pub enum AddFault {
    /// A field of that id, or a method or service of that name, stands at this place already.
    Duplicate(usize),
    OutOfMemory,
}
