//! How large the numbers of a book may be.

/// The largest amount that a movement, a pay-in or a pay-out moves: 10^12.
pub const MAX_MOVED: u64 = 1_000_000_000_000;

/// How many movements a book holds.
pub const MAX_MOVEMENTS: usize = 128;

/// How many accounts a book has at most, the depository's own account 0 among them.
pub const MAX_ACCOUNTS: usize = 32;

/// How many securities a book has at most.
pub const MAX_SECURITIES: usize = 16;

/// How many currencies a book has.
pub const CURRENCIES: usize = 2;

/// How many members set terms; they are numbered from 1.
pub const MEMBERS: usize = 16;

/// How many categories a member sets terms for.
pub const CATEGORIES: usize = 5;
