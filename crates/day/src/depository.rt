//! A small depository: two securities, two currencies, its own account and three participants'.
use book::Book;
use register::{Joined, Table, Turnover};
use std::alloc::{AllocError, Global};

const ACCOUNTS: usize = 4;

const SECURITIES: usize = 2;

/// Securities and litas are kept in tables, euro by turnover.
pub type Depository = Book<Table, Joined<Table, Turnover>>;

/// Opens on day 0, everything 0.
// Stays: the new form is no plainer: two programs open so, neither of which can call the other, and
// no crate below should know which currency stands in which register.
pub fn open(alloc: Global) -> Result<Depository, AllocError> {
    let securities = Table::zeroed(alloc, SECURITIES, ACCOUNTS)?;
    let litas = Table::zeroed(alloc, 1, ACCOUNTS)?;
    let euro = Turnover::zeroed(alloc, 1, ACCOUNTS)?;
    Ok(Book::open(securities, Joined::new(litas, euro), 0))
}
