//! The book that the program opens.
ghost use Rattle.std.specs.Prelude.{◌≡◌, IfOk};
ghost use Rattle.register.specs.Table.{table_shows};
ghost use Rattle.register.specs.Turnover.{turnover_shows};
ghost use Rattle.register.specs.Joined.{joined_shows};
ghost use Rattle.book.specs.Books.{state_of};
ghost use Rattle.book.specs.Opening.{opened};
ghost use Rattle.settle.specs.Opening.{from_nothing};

use book::Book;
use register::{Joined, Table, Turnover};
use std::alloc::{AllocError, Global};

/// How many securities the book has.
pub const SECURITIES: usize = 4;

/// How many accounts it has.
pub const ACCOUNTS: usize = 8;

/// A book on day 0 with nothing on its accounts. Of its two currencies the litas stand in a table
/// and the euro in a register of turnovers.
pub fn open(alloc: Global) -> Result<Book<Table, Joined<Table, Turnover>>, AllocError>
    ensures { IfOk result (λ book.
        state_of table_shows (joined_shows table_shows turnover_shows) book
        ≡ opened from_nothing) }
{
    let securities = Table::zeroed(alloc, SECURITIES, ACCOUNTS)?;
    let litas = Table::zeroed(alloc, 1, ACCOUNTS)?;
    let euro = Turnover::zeroed(alloc, 1, ACCOUNTS)?;
    Ok(Book::open(securities, Joined::new(litas, euro), 0))
}
