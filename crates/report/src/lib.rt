// Runs a day sheet line by line, and writes its report.
#![tactic(auto)]

mod days;
mod faults;
mod lines;
mod members;
mod ready;
mod rows;
mod running;
mod texts;
mod writing;

pub use days::run_day;
pub use faults::SheetFault;
pub use ready::run_sheet;
