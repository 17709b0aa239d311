//! What definitions lead to.
ghost use Rattle.std.specs.Prelude.{◌≡◌, [], IfOk, OnOk};
ghost use Rattle.idl_document.specs.Trees.{definition_tree, type_tree};
ghost use Rattle.idl_names.specs.Cycles.{IsReached, base_spots, definition_spots, next_spots, type_spots};
ghost use Rattle.idl_names.specs.Files.{file_trees};
ghost use Rattle.idl_names.specs.Marks.{IsBeyond, fresh_spots};
ghost use Rattle.idl_names.specs.Sets.{is_among, listed_spot, with_all};

use crate::documents::Spot;
use crate::marks::Marks;
use crate::names::Names;
use crate::spot_set::SpotSet;
use crate::targets::definition_at;
use gate_base::OutOfMemory;
use idl_document::{Definition, Name, TypeExpr, TypeForm};
use idl_rules::Scope;
use std::alloc::Global;

/// Puts the spots that a definition leads to, in one step or more, into an empty set.
pub(crate) fn reach(
    alloc: Global,
    names: &Names<'_>,
    from: Spot,
    set: &mut SpotSet,
) -> Result<(), OutOfMemory>
    requires { set.old ≡ [] }
    ensures { OnOk result (IsReached (file_trees names.now.files.now) from set.new) }
{
    let marks = Marks::new(alloc);
    let reached = reach_fresh(names, &marks, from, set);
    marks.let_go();
    reached
}

/// Puts the spots that a definition leads to, in one step or more, but for those behind known ones, into an empty set.
pub(crate) fn reach_fresh(
    names: &Names<'_>,
    marks: &Marks,
    from: Spot,
    set: &mut SpotSet,
) -> Result<(), OutOfMemory>
    requires { set.old ≡ [] }
    ensures { OnOk result (IsBeyond (file_trees names.now.files.now) marks.now from set.new) }
{
    add_next(names, from, set)?;
    let mut i = 0;
    'spots: while let Some(spot) = set.get(i) {
        add_fresh(names, marks, spot, set)?;
        i += 1;
    }
    Ok(())
}

/// Whether a definition leads to another at once.
pub(crate) fn leads_at_once(
    alloc: Global,
    names: &Names<'_>,
    from: Spot,
    to: Spot,
) -> Result<bool, OutOfMemory>
    ensures { IfOk result (λ leads. leads ≡ is_among to (with_all [] (next_spots (file_trees names.now.files.now) from))) }
{
    let mut next = SpotSet::new(alloc);
    let added = add_next(names, from, &mut next);
    let leads = next.contains(to);
    next.let_go();
    added?;
    Ok(leads)
}

// Adds the spots that a definition leads to at once, unless it is known.
#[tactic(auto, unfolding(crate::specs::Marks::fresh_spots))]
fn add_fresh(
    names: &Names<'_>,
    marks: &Marks,
    spot: Spot,
    set: &mut SpotSet,
) -> Result<(), OutOfMemory>
    ensures { OnOk result (set.new ≡ with_all set.old (fresh_spots (file_trees names.now.files.now) marks.now spot)) }
{
    if marks.knows(spot) {
        return Ok(());
    }
    add_next(names, spot, set)
}

/// Adds the spots that a definition leads to at once.
pub(crate) fn add_next(names: &Names<'_>, spot: Spot, set: &mut SpotSet) -> Result<(), OutOfMemory>
    ensures { OnOk result (set.new ≡ with_all set.old (next_spots (file_trees names.now.files.now) spot)) }
{
    match definition_at(names.files, spot) {
        None => Ok(()),
        Some(definition) => add_definition(names, spot.file, definition, set),
    }
}

fn add_definition(
    names: &Names<'_>,
    file: u32,
    definition: &Definition,
    set: &mut SpotSet,
) -> Result<(), OutOfMemory>
    ensures { OnOk result (set.new ≡ with_all set.old (definition_spots (file_trees names.now.files.now) file (definition_tree definition.now))) }
{
    match definition {
        Definition::Typedef(_, ty) => add_type(names, file, ty, set),
        Definition::Service(_, base, _) => add_base(names, file, base, set),
        Definition::Const(_, _, _) => Ok(()),
        Definition::Enum(_, _) => Ok(()),
        Definition::Struct(_, _, _) => Ok(()),
    }
}

fn add_base(
    names: &Names<'_>,
    file: u32,
    base: &Option<Name>,
    set: &mut SpotSet,
) -> Result<(), OutOfMemory>
    ensures { OnOk result (set.new ≡ with_all set.old (base_spots (file_trees names.now.files.now) file base.now)) }
{
    match base {
        None => Ok(()),
        Some(name) => add_spot(
            names.look_up(file, Scope::Services, name.text.as_slice()),
            set,
        ),
    }
}

fn add_type(
    names: &Names<'_>,
    file: u32,
    ty: &TypeExpr,
    set: &mut SpotSet,
) -> Result<(), OutOfMemory>
    ensures { OnOk result (set.new ≡ with_all set.old (type_spots (file_trees names.now.files.now) file (type_tree ty.now))) }
{
    match &ty.form {
        TypeForm::Base(_) => Ok(()),
        TypeForm::Named(word) => add_spot(names.look_up(file, Scope::Types, word.as_slice()), set),
        TypeForm::Map(key, value) => {
            add_type(names, file, key, set)?;
            add_type(names, file, value, set)
        }
        TypeForm::Set(element) => add_type(names, file, element, set),
        TypeForm::List(element) => add_type(names, file, element, set),
    }
}

fn add_spot(spot: Option<Spot>, set: &mut SpotSet) -> Result<(), OutOfMemory>
    ensures { OnOk result (set.new ≡ with_all set.old (listed_spot spot)) }
{
    match spot {
        None => Ok(()),
        Some(spot) => set.insert(spot),
    }
}
