//! The document of an IDL text: its declarations in order, with the offset of each name, type, id and value.
use crate::seq::Seq;
use crate::value::ValueExpr;
use gate_base::Text;

/// A name, or the path of an include, at the offset of its first byte.
#[derive(Drop)]
pub struct Name {
    pub at: usize,
    pub text: Text,
}

/// What a text declares.
#[derive(Drop)]
pub struct Document {
    pub includes: Seq<Name>,
    pub definitions: Seq<Definition>,
}

/// The three kinds of structs.
#[derive(Clone, Copy)]
pub enum Kin {
    Struct,
    Union,
    Exception,
}

/// What is said of a field's presence.
#[derive(Clone, Copy)]
pub enum Asked {
    Required,
    Optional,
    Default,
}

/// One declaration.
#[derive(Drop)]
pub enum Definition {
    Const(Name, TypeExpr, ValueExpr),
    Typedef(Name, TypeExpr),
    Enum(Name, Seq<Member>),
    Struct(Kin, Name, Seq<FieldDecl>),
    /// The service that it extends comes second.
    Service(Name, Option<Name>, Seq<Function>),
}

/// A member of an enum, with its number where one is given.
#[derive(Drop)]
pub struct Member {
    pub name: Name,
    pub value: Option<i64>,
}

/// A field of a struct, an argument, or an exception that a method throws. An id stands with its offset.
#[derive(Drop)]
pub struct FieldDecl {
    pub id: Option<(usize, i64)>,
    pub asked: Asked,
    pub ty: TypeExpr,
    pub name: Name,
    pub preset: Option<ValueExpr>,
}

/// A method of a service. The word `oneway` stands with its offset; `void` returns nothing.
#[derive(Drop)]
pub struct Function {
    pub oneway: Option<usize>,
    pub returns: Option<TypeExpr>,
    pub name: Name,
    pub args: Seq<FieldDecl>,
    pub throws: Seq<FieldDecl>,
}

/// A type that has a word of its own. `byte` is `I8`, `string` is `Text`, `binary` is `Blob`.
#[derive(Clone, Copy)]
pub enum BaseWord {
    Bool,
    I8,
    I16,
    I32,
    I64,
    Double,
    Text,
    Blob,
    Uuid,
}

/// A type at the offset of its first byte.
#[cycle(types)]
#[derive(Drop)]
pub struct TypeExpr {
    pub at: usize,
    pub form: TypeForm,
}

/// What a type is written as.
#[cycle(types)]
#[derive(Drop)]
pub enum TypeForm {
    Base(BaseWord),
    Named(Text),
    Map(Box<TypeExpr>, Box<TypeExpr>),
    Set(Box<TypeExpr>),
    List(Box<TypeExpr>),
}
