//! What the evaluation of contracts passes around: frames, contexts, bound names, charges, and why it stops.
#![tactic(auto)]

mod abort;
mod applied;
mod context;
mod deploying;
mod frame;
mod home;
mod names;
mod own;
mod payment;
mod stop;
mod taking;
mod way;

pub use abort::{Abort, fault};
pub use applied::{ByName, Called};
pub use context::Context;
pub use deploying::Deploying;
pub use frame::Frame;
pub use home::Home;
pub use names::Names;
pub use payment::{pay, pay_for, pay_for_all, total_size};
pub use stop::Stop;
pub use taking::{Taking, taking_of};
pub use way::{
    Way, err_way_of, into_content, optional_way_of, response_way_of, tried, truth, way_of,
};
