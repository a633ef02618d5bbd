// Trace records: the decoder reads the record at a place of a trace, the encoder writes a record into a lent buffer.
// Where each field of a record lies is said once, by the layouts of the rules; the contracts here tie every place to them.
// Every byte string, every place and every record has an answer; nothing outside the lent slices is touched.
#![tactic(auto)]

pub mod decoder;
pub mod encoder;
pub mod kind;
mod layout;
pub mod reader;
