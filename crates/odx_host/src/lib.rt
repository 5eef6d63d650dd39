// The host copier: it copies extents of one unit to those of another by ROD tokens, as a host does that asks a copy manager.
#![tactic(auto)]

mod copying;
mod fault;
mod link_port;
mod port;
mod replies;
mod requests;
mod stream_port;
mod told;
mod unit_port;
mod units;

pub use copying::copy;
pub use fault::{Copied, CopyFault};
pub use link_port::LinkPort;
pub use port::{Port, PortFault};
pub use stream_port::{StreamFault, copy_over};
pub use unit_port::UnitPort;

#[cfg(test)]
mod tests;
