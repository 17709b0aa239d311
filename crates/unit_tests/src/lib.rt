//! Small tests of single crates: what their clauses leave to the world outside, as vectors of the standards and printed
//! lines, and each public call once. They stand here because a library with tests is proved a second time.
#![tactic(auto)]

#[cfg(test)]
mod binary_protocol_tests;
#[cfg(test)]
mod compact_protocol_tests;
#[cfg(test)]
mod drill_messages_tests;
#[cfg(test)]
mod framed_transport_tests;
#[cfg(test)]
mod gate_io_tests;
#[cfg(test)]
mod idl_files_tests;
#[cfg(test)]
mod idl_lexer_tests;
#[cfg(test)]
mod idl_resolve_tests;
#[cfg(test)]
mod json_protocol_tests;
#[cfg(test)]
mod json_text_tests;
#[cfg(test)]
mod memory_fan_tests;
#[cfg(test)]
mod memory_hub_tests;
#[cfg(test)]
mod message_show_tests;
#[cfg(test)]
mod stream_messages_tests;
#[cfg(test)]
mod type_tables_tests;
#[cfg(test)]
mod value_trees_tests;
#[cfg(test)]
mod varint_zigzag_tests;
