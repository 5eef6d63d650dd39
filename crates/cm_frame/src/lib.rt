// Headers, trace items, requests and replies, and their bytes.
#![tactic(auto)]

mod frame;
mod framing;
mod header;
mod item;
mod item_buffer;
mod laws;
mod long_item;
mod long_request;
mod memory;
mod reply;
mod request;

pub use cm_base::Parsed;
pub use frame::{Reply, Request};
pub use framing::{Framed, Framer};
pub use header::{read_header, write_header};
pub use item::{TraceItem, read_item, write_item};
pub use item_buffer::ItemBuffer;
pub use laws::{none_begins_law, one_spelling_law, read_back_law, stays_judged_law};
pub use memory::Memory;
pub use reply::{read_reply, reply_head, write_reply};
pub use request::{DATA_LIMIT, read_request, write_request};
