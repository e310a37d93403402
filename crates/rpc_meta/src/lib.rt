//! RpcMeta, the part of a frame that says what a call is about: its bytes read and written.
//!
//! `read_meta` answers what the Protocol Buffers wire format says of the bytes, or their first fault with its place.
//! `write_meta` appends the one spelling of a meta, and `reads_its_spelling` is the law that this spelling is read as
//! that meta again.
#![tactic(auto)]

mod fault;
mod fields;
mod law;
mod meta;
mod parts;
mod reading;
mod size;
mod text;
mod varint;
mod writing;

pub use fault::MetaFault;
pub use law::{names_no_memory, reads_its_spelling};
pub use meta::{Meta, RequestMeta, ResponseMeta, reply_code};
pub use reading::read_meta;
pub use size::{is_writable, spelled_len};
pub use writing::write_meta;

#[cfg(test)]
mod tests;
