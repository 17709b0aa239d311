//! Laws of what an IDL's declarations mean. Each law is the contract of a function that does nothing. No code rests on
//! them.
#![tactic(auto)]

mod meaning;

pub use meaning::{
    a_type_means_one_thing, declared_methods_are_found, fields_are_looked_up_by_id,
    methods_are_own_or_inherited, parts_are_types_of_the_text, services_have_the_roots_names,
    tables_can_have_lawful_files, tables_have_all_that_is_declared, tables_have_nothing_more,
    the_only_service_is_the_roots, the_roots_services_are_found,
};
