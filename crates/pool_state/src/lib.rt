//! The state of a pool, and the sector in which each of its drives keeps a copy.
//!
//! Its model is one table, `copied_of` in `specs/Sector.antt`, which says where each part of a state
//! stands in its sector. `decode_state` gives the state of that table, or the first of three faults: a
//! sector that isn't the one way to write a valid state is refused. `encode_state` writes a state.
//!
//! The one contract for the layer above: what `encode_state` writes of a valid state, `decode_state`
//! reads back.
#![tactic(auto)]

mod contents;
mod offsets;
mod reading;
mod rules;
mod writing;

pub use contents::{Copied, Drive, Plan, State, StateFault, Work};
pub use reading::decode_state;
pub use rules::is_state_of;
pub use writing::encode_state;
