//! What a name of a type means.
use idl_document::TypeExpr;
use type_tables::Ty;

/// A type as it stands in a text: the place of its file, the number of its first part, and the type.
#[derive(Clone, Copy)]
pub(crate) struct Expression<'d> {
    pub(crate) file: u32,
    pub(crate) base: u32,
    pub(crate) tree: &'d TypeExpr,
}

/// A type, or what stands in a typedef.
#[derive(Clone, Copy)]
pub(crate) enum TypeOrAlias<'d> {
    Found(Ty),
    Alias(Expression<'d>),
}

/// What a name means, and how many typedefs may be followed from there.
#[derive(Clone, Copy)]
pub(crate) struct Resolution<'d> {
    pub(crate) meant: TypeOrAlias<'d>,
    pub(crate) left: usize,
}
