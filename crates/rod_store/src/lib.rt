// The tokens that a unit made: which are live, what each stands for, and which redeem is refused.
#![tactic(auto)]

mod judge;
mod kept;
mod pinned_change;
mod pinned_rod;
mod store;
mod token_change;
mod walks;

pub use kept::{Kept, TokenState};
pub use pinned_change::{PinnedChange, give_up, settle};
pub use pinned_rod::PinnedRod;
pub use store::{Populated, RodStore};
pub use token_change::TokenChange;
