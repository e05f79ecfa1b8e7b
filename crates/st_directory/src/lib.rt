//! Values by id, some of them under names: an id names one value at most, for good.
//! It knows nothing of what a value is, of locks and of threads.
#![tactic(auto)]

mod directory;
mod keyed;
mod laws;
mod limits;
mod names;
mod vacancy;
mod values;

pub use directory::Directory;
pub use laws::{
    a_directory_is_in_order, a_gone_id_stays_gone, a_new_id_was_no_id_before,
    an_inserted_value_is_found,
};
pub use limits::{LONGEST_NAME, MOST};
pub use st_events::{MachineId, Refusal};
pub use vacancy::Vacancy;
