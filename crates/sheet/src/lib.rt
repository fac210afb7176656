// The lines of a day sheet: their fields, the forms that fields have, and what a line says.
#![tactic(auto)]

mod cursor;
mod cutting;
mod faults;
mod feeds;
mod forms;
mod numerals;
mod outcome;
mod reading;
mod tokens;
mod verbs;

pub use faults::LineFault;
pub use feeds::Lines;
pub use outcome::Line;
pub use reading::read_line;
