//! Lines of events, of costs and bounds, of refusals, of judged contracts and of a state.
#![tactic(auto)]

mod addresses;
mod checks;
mod costs;
mod events;
mod laws;
mod rebounds;
mod refusals;
mod state;

pub use addresses::AddressCache;
pub use checks::{accepted_lines, refused_line};
pub use costs::{write_bounds, write_cost};
pub use events::{event_line, event_line_with, write_event};
pub use laws::a_state_has_one_text;
pub use rebounds::write_rebounds;
pub use refusals::{stop_text, write_entry_refusal};
pub use state::{row_lines, state_line, state_lines};
