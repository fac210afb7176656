// The limits of what is called and kept, each by its name.

pub use charge::{MAX_LOTS, MAX_PRICE};
pub use keeper::MAX_AMOUNT;

/// The greatest number of a member.
pub const MAX_MEMBER: u64 = 63;

/// The greatest number of an instrument.
pub const MAX_INSTRUMENT: u64 = 15;

/// The most kilograms of a lot.
pub const MAX_LOT_WEIGHT: u64 = 100_000;

/// The most days from a trade to its delivery end; days to fund it are no more than these.
pub const MAX_DELIVERY_DAYS: u64 = 90;

/// The last operating day: here the day stops.
pub const MAX_DAY: u64 = 36_500;

/// The most kilograms that one delivery reports.
pub const MAX_REPORT: u64 = 1_000_000_000;

/// The most orders, and the most contracts, that are live at once.
pub const MAX_LIVE: usize = 256;

/// The most bytes of a line of a day sheet, its feed apart.
pub const MAX_LINE_BYTES: usize = 120;

/// The most bytes of a day sheet.
pub const MAX_SHEET_BYTES: usize = 65_536;
