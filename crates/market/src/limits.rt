// The limits of the engine. A price is a whole number of ten-thousandths.

/// The highest price; the lowest is 1.
pub const MAX_PRICE: u32 = 1_000_000_000;

/// The largest quantity of an order; the smallest is 1.
pub const MAX_QUANTITY: u32 = 1_000_000;

/// The last rank that a book gives; the first is 1.
pub const MAX_RANK: u32 = 1_000_000;

/// The most orders that a sheet holds on one side.
pub const MAX_SIDE_ORDERS: usize = 2_048;
