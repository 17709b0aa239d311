//! The names of typedefs followed one by one.
ghost use Rattle.std.specs.Prelude.{◌≡◌, ◌+◌, IfSome, option_copied, option_map};
ghost use Rattle.idl_document.specs.Trees.{definition_tree, type_tree};
ghost use Rattle.idl_names.specs.Files.{file_trees};
ghost use Rattle.idl_typedefs.specs.AliasLinks.{Follows, IsAliasLink, alias_in, alias_of, next};

use crate::typedefs::{AliasLink, Typedefs};
use idl_document::{Definition, TypeExpr, TypeForm};
use idl_names::{Names, Scope, Spot, definition_at};

/// What the name means that is a typedef's whole type.
#[tactic(auto, unfolding(crate::specs::AliasLinks::next))]
pub(crate) fn next(names: &Names<'_>, spot: Spot) -> Option<Spot>
    ensures { result ≡ next (file_trees names.now.files.now) spot }
{
    let word = alias_in(definition_at(names.files, spot))?;
    names.look_up(spot.file, Scope::Types, word)
}

fn alias_in<'d>(definition: Option<&'d Definition>) -> Option<&'d [u8]>
    ensures { option_copied result ≡ alias_in (option_map definition_tree (option_copied definition.entry)) }
{
    match definition {
        Some(Definition::Typedef(_, ty)) => alias_of(ty),
        _ => None,
    }
}

fn alias_of(ty: &TypeExpr) -> Option<&[u8]>
    ensures { option_copied result ≡ alias_of (type_tree ty.now) }
{
    match &ty.form {
        TypeForm::Named(word) => Some(word.as_slice()),
        _ => None,
    }
}

/// The link from a definition: the names are followed up to the first from which a link is known. None where they lead
/// round.
pub(crate) fn follow(typedefs: &Typedefs, names: &Names<'_>, spot: Spot) -> Option<AliasLink>
    requires { Follows (file_trees names.now.files.now) typedefs.now }
    ensures { IfSome result (IsAliasLink (file_trees names.now.files.now)) }
{
    let limit = names.definition_count();
    let mut at = spot;
    let mut steps = 0;
    'names: while steps <= limit {
        if let Some(link) = typedefs.link(at) {
            return joined(spot, steps, link);
        }
        match next(names, at) {
            Some(further) => at = further,
            None => {
                return Some(AliasLink {
                    first: spot,
                    last: at,
                    steps,
                });
            }
        }
        steps += 1;
    }
    None
}

fn joined(first: Spot, steps: usize, link: AliasLink) -> Option<AliasLink>
    ensures first { IfSome result (λ whole. whole.first ≡ first) }
    ensures last { IfSome result (λ whole. whole.last ≡ link.last) }
    ensures steps { IfSome result (λ whole. whole.steps ≡ steps + link.steps) }
{
    Some(AliasLink {
        first,
        last: link.last,
        steps: steps.checked_add(link.steps)?,
    })
}
