//! What an IDL file may not declare, after the Apache Thrift IDL: the rows of the refusals, which of several refusals is
//! told, and the rules that one file keeps by itself.
//!
//! A check notes each refusal that it finds. The one that is told is the least by offset, and at one offset by its row, so
//! checks may go in any order.
#![tactic(auto)]

mod doubles;
mod ids;
mod least;
mod row;
mod rules;
mod scopes;
mod seen;
mod values;

pub use ids::{FieldId, count_on, field_id};
pub use least::Least;
pub use row::{IdlFault, IdlRow};
pub use rules::check_rules;
pub use scopes::Scope;
pub use values::{member_value, number_after};
