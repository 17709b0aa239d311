//! What a name means.
ghost use Rattle.std.specs.Prelude.{◌≡◌, ◌<◌, length, slice_get, position, IfSome, option_copied, option_map};
ghost use Rattle.idl_document.specs.Trees.{definition_tree};
ghost use Rattle.idl_names.specs.Files.{file_tree, file_trees};
ghost use Rattle.idl_names.specs.Meaning.{declares, name_in, is_named, declared_in, has_base, included, meaning, HasFewDefinitions};

use crate::documents::{Documents, FileDoc, Spot};
use crate::paths::{base_name, last_place};
use idl_document::{Definition, Name};
use idl_rules::Scope;

/// The first definition that a name means in a scope of the file at this place. A name without a dot is of the file
/// itself. Any other is cut at its last dot, and is of the first include whose base name stands before that, and of no
/// other. The base name of an include is the last segment of its path, cut before that segment's last dot.
///
/// `None`: there is no such definition. It takes no memory.
#[tactic(auto, unfolding(crate::specs::Meaning::meaning))]
pub fn look_up(documents: &Documents, file: u32, scope: Scope, name: &[u8]) -> Option<Spot>
    requires { HasFewDefinitions (file_trees documents.now) }
    ensures { result ≡ meaning (file_trees documents.now) file scope name.now }
{
    let files = documents.as_slice();
    match last_place(name, b'.') {
        None => declared_in(files, file, scope, name),
        Some(dot) => {
            let other = included(files, file, &name[..dot])?;
            declared_in(files, other, scope, &name[dot + 1..])
        }
    }
}

#[tactic(auto, unfolding(crate::specs::Meaning::declared_in))]
fn declared_in(files: &[FileDoc], file: u32, scope: Scope, name: &[u8]) -> Option<Spot>
    requires { HasFewDefinitions (file_trees files.now) }
    ensures { result ≡ declared_in (file_trees files.now) file scope name.now }
{
    let found = file_at(files, file)?;
    let place = place_in(found.document.definitions.as_slice(), scope, name)?;
    Some(Spot {
        file,
        definition: place as u32,
    })
}

/// The file at this place.
pub(crate) fn file_at(files: &[FileDoc], file: u32) -> Option<&FileDoc>
    ensures { option_map file_tree (option_copied result) ≡ slice_get (file_trees files.now) file }
{
    files.get(file as usize)
}

fn place_in(definitions: &[Definition], scope: Scope, name: &[u8]) -> Option<usize>
    ensures place { result ≡ position (λ d. declares scope name.now (definition_tree d)) definitions.now }
    ensures within { IfSome result (λ place. place < length definitions.now) }
{
    definitions.iter().position(|d| declares(d, scope, name))
}

fn declares(definition: &Definition, scope: Scope, word: &[u8]) -> bool
    ensures { result ≡ declares scope word.now (definition_tree definition.now) }
{
    is_named(name_in(definition, scope), word)
}

/// The name that a definition puts into this scope.
pub(crate) fn name_in(definition: &Definition, scope: Scope) -> Option<&[u8]>
    ensures { option_copied result ≡ name_in scope (definition_tree definition.now) }
{
    match (scope, definition) {
        (Scope::Constants, Definition::Const(name, _, _)) => Some(name.text.as_slice()),
        (Scope::Types, Definition::Typedef(name, _)) => Some(name.text.as_slice()),
        (Scope::Types, Definition::Enum(name, _)) => Some(name.text.as_slice()),
        (Scope::Types, Definition::Struct(_, name, _)) => Some(name.text.as_slice()),
        (Scope::Services, Definition::Service(name, _, _)) => Some(name.text.as_slice()),
        _ => None,
    }
}

fn is_named(name: Option<&[u8]>, word: &[u8]) -> bool
    ensures { result ≡ is_named word.now (option_copied name.entry) }
{
    match name {
        None => false,
        Some(name) => word == name,
    }
}

#[tactic(auto, unfolding(crate::specs::Meaning::included))]
fn included(files: &[FileDoc], file: u32, prefix: &[u8]) -> Option<u32>
    ensures { result ≡ included (file_trees files.now) file prefix.now }
{
    let found = file_at(files, file)?;
    let include = include_of(found.document.includes.as_slice(), prefix)?;
    found.includes.as_slice().get(include).copied()
}

fn include_of(includes: &[Name], prefix: &[u8]) -> Option<usize>
    ensures { result ≡ position (has_base prefix.now) includes.now }
{
    includes.iter().position(|path| has_base(path, prefix))
}

fn has_base(path: &Name, prefix: &[u8]) -> bool
    ensures { result ≡ has_base prefix.now path.now }
{
    is_named(base_name(path.text.as_slice()), prefix)
}
