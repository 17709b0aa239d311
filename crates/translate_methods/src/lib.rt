//! A message for one that serves a single service, as a router leads it there: the name before the method's tells whom it is for, and is
//! left out.
#![tactic(auto)]

mod methods;

pub use methods::{Services, served, translate_method, translate_method_quickly};
