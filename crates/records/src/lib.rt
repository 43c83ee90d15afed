// Reads the lines of an order file into plain values.
// A line is read by itself, with what stands when it comes; no memory is asked for.
#![tactic(auto)]

mod complaints;
mod cursor;
mod drafts;
mod forms;
mod queries;
mod reading;
mod values;

pub use complaints::Complaint;
pub use reading::read_record;
pub use values::{Form, Kind, Record, Standing};
