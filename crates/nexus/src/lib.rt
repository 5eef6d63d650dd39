// A world of units that actors share, and the one legal history of all their entries (own profile: no standard
// speaks of it).
#![tactic(auto)]

mod acting;
mod beginning;
mod closing;
mod holding;
mod pass;
mod resuming;
mod rooms;
mod root;
mod seats;
mod world;

pub use closing::Closed;
pub use holding::Hold;
pub use pass::Pass;
pub use resuming::Store;
pub use root::Root;
pub use world::World;
