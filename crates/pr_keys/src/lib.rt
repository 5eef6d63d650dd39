// The persistent reservations of a unit: who is registered, who has reserved it, and what that bars others from.
#![tactic(auto)]

mod kind;
mod laws;
mod lists;
mod refused;
mod registrants;
mod state;

pub use kind::ReservationType;
pub use laws::sound_law;
pub use lists::{OutList, holder_data, keys_data, read_out_list, write_out_list};
pub use refused::{PrRefused, Refusal};
pub use registrants::Registrant;
pub use state::{PrState, Reservation};

#[cfg(test)]
mod rows;
#[cfg(test)]
mod tests;
