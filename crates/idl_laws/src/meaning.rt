//! What the declarations of an IDL mean, and that its tables say so.
ghost use Rattle.std.specs.Prelude.{List, None};
ghost use Rattle.idl_names.specs.Files.{FileTree};
ghost use Rattle.type_tables.specs.Declarations.{Declarations};
ghost use Rattle.idl_schema.specs.Schema.{declarations_of};
ghost use Rattle.idl_schema.specs.Stands.{CanStand};
ghost use Rattle.idl_resolve.specs.Loads.{Resolved};
ghost use Rattle.idl_resolve.specs.Refused.{IsFirst};
ghost use Rattle.idl_laws.specs.Declared.{ArePartsMeant, HasAll};
ghost use Rattle.idl_laws.specs.LookUps.{AnswersIds, AnswersMethods, AnswersOnly, AnswersServices, AreDotless, FindsMethods, FindsServices};
ghost use Rattle.idl_laws.specs.Sizes.{HasNoMore};
ghost use Rattle.idl_laws.specs.TypeMeanings.{MeansOneThing};

/// A type of the text means one thing at most.
pub fn a_type_means_one_thing()
    ensures { (files : List FileTree) → MeansOneThing files }
{}

/// The tables of an IDL that is loaded have each definition of each file under its number: an enum with the numbers of its
/// members, a struct with its fields, a service with what it extends and its methods with their arguments and results. Each
/// of these types means something, and its type in the tables denotes that.
pub fn tables_have_all_that_is_declared()
    ensures { (files : List FileTree) (schema : Declarations) → Resolved files schema → HasAll files schema }
{}

/// They have nothing besides: as many enums, structs and services as the files declare, and the built-in exception.
pub fn tables_have_nothing_more()
    ensures { (files : List FileTree) (schema : Declarations) → Resolved files schema → HasNoMore files schema }
{}

/// Where nothing that files declare is refused, tables can have it: each name means something that is declared, and no two
/// services have one name in the root file. So such files have a schema unless memory is wanting.
pub fn tables_can_have_lawful_files()
    ensures { (files : List FileTree) → IsFirst files None → AreDotless files → CanStand (declarations_of files) }
{}

/// Each part of a type in these tables denotes what a type of the text means.
pub fn parts_are_types_of_the_text()
    ensures { (files : List FileTree) (schema : Declarations) → Resolved files schema → ArePartsMeant files schema }
{}

/// Of the fields of a struct, of arguments or of what is thrown, an id finds one that is declared with it, or none where none
/// is.
pub fn fields_are_looked_up_by_id()
    ensures { (files : List FileTree) → AnswersIds files }
{}

/// A method that is looked up in the tables of a loaded IDL is one that its service declares, or else one of the service that it
/// extends, where it declares none of this name itself.
pub fn methods_are_own_or_inherited()
    ensures { (files : List FileTree) (schema : Declarations) → Resolved files schema → AnswersMethods files schema }
{}

/// Where none is found, the service neither declares nor inherits one of this name.
pub fn declared_methods_are_found()
    ensures { (files : List FileTree) (schema : Declarations) → Resolved files schema → FindsMethods files schema }
{}

/// A service that is looked up by a name, as `Name` or `p.Name`, is the one that this name means in the root file.
pub fn services_have_the_roots_names()
    ensures { (files : List FileTree) (schema : Declarations) → Resolved files schema → AreDotless files → AnswersServices files schema }
{}

/// Each service of the root file, and of the files that it includes, is found under a name that it has there.
pub fn the_roots_services_are_found()
    ensures { (files : List FileTree) (schema : Declarations) → Resolved files schema → FindsServices files schema }
{}

/// The service that is used where none is named is the only one that the root file declares.
pub fn the_only_service_is_the_roots()
    ensures { (files : List FileTree) (schema : Declarations) → Resolved files schema → AreDotless files → AnswersOnly files schema }
{}
