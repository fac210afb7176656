// The state of a section apart from its keepers: its day, the rows in force, the live orders and contracts, what they
// hold, and what a contract does at an event. It asks keepers, and posts nothing to them.
#![tactic(auto)]

mod contracts;
mod days;
mod events;
mod finding;
mod holds;
mod limits;
mod live;
mod members;
mod opening;
mod orders;
mod section;
mod settle;
mod settlement;
mod trades;

pub use members::{Member, Stock, held};
pub use section::Section;
pub use settlement::{Effect, Settlement, Transfer};
