//! TJSON, after Apache Thrift's TJSONProtocol: a reader and a writer over the traits of a protocol.
//!
//! A message is `[1,"name",type,number,{fields}]`. The reader goes over the frame once, one event a call: the marks
//! before an item are read with it. The writer spells each event without whitespace, with the same marks before it.
#![tactic(auto)]

mod head;
mod item;
mod lay;
mod opening;
mod places;
mod protocol;
mod put;
mod read_forms;
mod reader;
mod room;
mod scan;
mod starts;
mod value;
mod word;
mod write_forms;
mod writer;

pub use reader::JsonRead;
pub use writer::JsonWrite;
