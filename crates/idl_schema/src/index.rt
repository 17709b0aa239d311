//! What names and types mean in the files of an IDL.
ghost use Rattle.std.specs.Prelude.{◌≡◌, ◌≤◌, ◌++◌, ◌∷◌, [], IfOk, Some, option_map, option_copied};
ghost use Rattle.idl_document.specs.Trees.{definition_tree, type_tree};
ghost use Rattle.idl_names.specs.Files.{file_trees};
ghost use Rattle.idl_typedefs.specs.AliasLinks.{Follows, Follows-prop};
ghost use Rattle.idl_schema.specs.Numbers.{first_of, number_in, numbers_of};
ghost use Rattle.idl_schema.specs.Shares.{base_of, base_by, is_place, prefix_of, prefix_in};
ghost use Rattle.idl_schema.specs.Types.{base_ty, plain_ty, target_of, target, target_at, target_by, ty_resolution, ty_by, ty_in, followed};

use crate::numbers::{First, numbers_of, sum};
use crate::types::{Expression, Resolution, TypeOrAlias};
use gate_base::{OutOfMemory, Text};
use idl_document::{BaseWord, Definition, Name, Seq, TypeExpr, TypeForm};
use idl_names::{Names, Scope, Spot, base_name, definition_at};
use idl_typedefs::{ResolvedAlias, Typedefs};
use std::alloc::Global;
use type_tables::{EnumId, ServiceId, StructId, Ty, TyId};

/// The names of the files of an IDL, with the numbers of their definitions and the ends of their typedefs.
#[derive(Drop)]
pub(crate) struct SchemaIndex<'s, 'd> {
    pub(crate) names: &'s Names<'d>,
    numbers: Seq<Seq<First>>,
    typedefs: Typedefs,
    ghost follows: { Follows (file_trees names.now.files.now) typedefs } by { Follows-prop (file_trees names.now.files.now) typedefs },
    ghost numbered: { numbers ≡ numbers_of (file_trees names.now.files.now) },
}

impl<'s, 'd> SchemaIndex<'s, 'd> {
    ghost use Rattle.idl_schema.specs.Indexes.{files_of};

    /// Numbers the definitions of these files, and follows their typedefs.
    ///
    /// `OutOfMemory`: the memory for it was not found.
    pub(crate) fn new(
        alloc: Global,
        names: &'s Names<'d>,
    ) -> Result<SchemaIndex<'s, 'd>, OutOfMemory>
        ensures { IfOk result (λ s. files_of s ≡ file_trees names.now.files.now) }
    {
        let numbers = numbers_of(alloc, names.files)?;
        let typedefs = Typedefs::build(alloc, names)?;
        Ok(SchemaIndex {
            names,
            numbers,
            typedefs,
        })
    }

    fn first_of(&self, spot: Spot) -> Option<First>
        ensures { result ≡ first_of (files_of self.now) spot }
    {
        first_in(self.numbers.as_slice(), spot)
    }

    // What a name of a type means in the file at this place, behind the typedefs that are names alone.
    #[tactic(auto, unfolding(crate::specs::Types::target))]
    fn resolution(&self, file: u32, word: &[u8], left: usize) -> Resolution<'d>
        ensures meant { ty_resolution (files_of self.now) result ≡ ty_by (target (files_of self.now) file word.now) (followed left (files_of self.now)) }
        ensures fewer { result.left ≤ left }
    {
        match self.names.look_up(file, Scope::Types, word) {
            Some(spot) => self.resolved(spot, left),
            None => Resolution {
                meant: TypeOrAlias::Found(Ty::Unknown),
                left,
            },
        }
    }

    fn resolved(&self, spot: Spot, left: usize) -> Resolution<'d>
        ensures meant { ty_resolution (files_of self.now) result ≡ ty_by (target_at (files_of self.now) (Some spot)) (followed left (files_of self.now)) }
        ensures fewer { result.left ≤ left }
    {
        let resolved_alias = self.typedefs.resolve_chain(spot, left);
        self.resolution_at(resolved_alias)
    }

    fn resolution_at(&self, resolved_alias: ResolvedAlias) -> Resolution<'d>
        ensures meant { let d = files_of self.now in ty_resolution d result ≡ ty_by (target_at d (Some resolved_alias.spot)) (followed resolved_alias.left d) }
        ensures left { result.left ≡ resolved_alias.left }
    {
        let spot = resolved_alias.spot;
        let meant = meant(
            spot.file,
            definition_at(self.names.files, spot),
            self.first_of(spot),
        );
        Resolution {
            meant,
            left: resolved_alias.left,
        }
    }

    /// The type that an expression of the file at this place means, where the first of its parts has the number `base`.
    #[tactic(auto, unfolding(crate::specs::Types::ty_in))]
    pub(crate) fn type_of(&self, file: u32, base: u32, tree: &TypeExpr) -> Result<Ty, OutOfMemory>
        ensures { IfOk result (λ ty. ty ≡ ty_in (files_of self.now) file base (type_tree tree.now)) }
    {
        let mut left = self.names.definition_count() + 1;
        let mut at = Expression { file, base, tree };
        'typedefs: loop {
            let TypeForm::Named(word) = &at.tree.form else {
                return plain_ty(at.base, at.tree);
            };
            if left == 0 {
                return Ok(Ty::Unknown);
            }
            let resolution = self.resolution(at.file, word.as_slice(), left - 1);
            match resolution.meant {
                TypeOrAlias::Found(ty) => return Ok(ty),
                TypeOrAlias::Alias(next) => at = next,
            }
            left = resolution.left;
        }
    }

    /// The number of the service that is extended.
    #[tactic(auto, unfolding(crate::specs::Shares::base_of))]
    pub(crate) fn base_of(&self, file: u32, name: &Option<Name>) -> Option<ServiceId>
        ensures { result ≡ base_of (files_of self.now) file name.now }
    {
        match name {
            Some(name) => {
                let spot = self
                    .names
                    .look_up(file, Scope::Services, name.text.as_slice())?;
                let first = self.first_of(spot)?;
                Some(ServiceId(first.services))
            }
            None => None,
        }
    }

    /// What stands before the names of a file's services in the root file: nothing for its own, a base name and a dot for
    /// those of a file that it includes. Those of other files have no name there.
    #[tactic(auto, unfolding(crate::specs::Shares::prefix_of))]
    pub(crate) fn prefix_of(&self, alloc: Global, file: u32) -> Result<Option<Text>, OutOfMemory>
        ensures { IfOk result (λ prefix. prefix ≡ prefix_of (files_of self.now) file) }
    {
        if file == 0 {
            return Ok(Some(Text::new(alloc, b"")?));
        }
        match self.names.files.first() {
            Some(root) => self.prefix_in(alloc, file, root.document.includes.as_slice()),
            None => Ok(None),
        }
    }

    fn prefix_in(
        &self,
        alloc: Global,
        file: u32,
        paths: &[Name],
    ) -> Result<Option<Text>, OutOfMemory>
        ensures { IfOk result (λ prefix. prefix ≡ prefix_in (files_of self.now) file paths.now) }
    {
        for path in paths {
            if let Some(prefix) = base_name(path.text.as_slice())
                && is_place(file, self.names.included(0, prefix))
            {
                return with_dot(alloc, prefix);
            }
        }
        Ok(None)
    }
}

fn first_in(numbers: &[Seq<First>], spot: Spot) -> Option<First>
    ensures { result ≡ number_in numbers.now spot }
{
    let row = numbers.get(spot.file as usize)?;
    row.as_slice().get(spot.definition as usize).copied()
}

fn meant<'d>(file: u32, definition: Option<&'d Definition>, first: Option<First>) -> TypeOrAlias<'d>
    ensures { target_of result ≡ target_by file (option_map definition_tree (option_copied definition.entry)) first }
{
    match (definition, first) {
        (Some(Definition::Typedef(_, tree)), Some(n)) => TypeOrAlias::Alias(Expression {
            file,
            base: n.types,
            tree,
        }),
        (Some(Definition::Enum(_, _)), Some(n)) => TypeOrAlias::Found(Ty::Enum(EnumId(n.enums))),
        (Some(Definition::Struct(_, _, _)), Some(n)) => {
            TypeOrAlias::Found(Ty::Struct(StructId(n.structs)))
        }
        _ => TypeOrAlias::Found(Ty::Unknown),
    }
}

fn plain_ty(base: u32, tree: &TypeExpr) -> Result<Ty, OutOfMemory>
    ensures { IfOk result (λ ty. ty ≡ plain_ty base (type_tree tree.now)) }
{
    match &tree.form {
        TypeForm::Base(word) => Ok(base_ty(*word)),
        TypeForm::Named(_) => Ok(Ty::Unknown),
        TypeForm::Map(_, _) => Ok(Ty::Map(TyId(base), TyId(sum(base, 1)?))),
        TypeForm::Set(_) => Ok(Ty::Set(TyId(base))),
        TypeForm::List(_) => Ok(Ty::List(TyId(base))),
    }
}

fn base_ty(word: BaseWord) -> Ty
    ensures { result ≡ base_ty word }
{
    match word {
        BaseWord::Bool => Ty::Bool,
        BaseWord::I8 => Ty::I8,
        BaseWord::I16 => Ty::I16,
        BaseWord::I32 => Ty::I32,
        BaseWord::I64 => Ty::I64,
        BaseWord::Double => Ty::Double,
        BaseWord::Text => Ty::Text,
        BaseWord::Blob => Ty::Blob,
        BaseWord::Uuid => Ty::Uuid,
    }
}

fn is_place(file: u32, place: Option<u32>) -> bool
    ensures { result ≡ is_place file place }
{
    match place {
        Some(place) => place == file,
        None => false,
    }
}

fn with_dot(alloc: Global, prefix: &[u8]) -> Result<Option<Text>, OutOfMemory>
    ensures { IfOk result (λ text. text ≡ Some (prefix.now ++ 46 ∷ [])) }
{
    let mut bytes = Vec::from_slice(alloc, prefix)?;
    bytes.push(b'.')?;
    Ok(Some(Text::new(alloc, bytes.as_slice())?))
}
