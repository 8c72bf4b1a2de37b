// Recordings of runs: what their bytes mean, the verdict on one, and the verdict printed.
#![tactic(auto)]

mod acceptance;
mod faults;
mod fields;
mod layout;
mod printing;
mod reader;
mod reading;
mod records;
mod theorems;

pub use acceptance::the_moves_of_a_recording_are_accepted;
pub use faults::{Failure, Fault, Place};
pub use layout::first_record;
pub use printing::{Unprinted, print_recording};
pub use reading::judge_recording;
pub use records::{Fields, Kind, Record, Setup};
pub use theorems::the_layout_is_read_back;
