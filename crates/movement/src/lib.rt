//! Movements: what an exchange trade becomes on the book until it settles, ends or is cancelled.
#![tactic(auto)]

pub mod category;
pub mod class;
mod clearing;
mod consent;
mod duties;
mod forming;
pub mod half;
pub mod limits;
pub mod movement;
pub mod party;
pub mod side;
pub mod terms;
pub mod trade;

pub use category::Category;
pub use class::Class;
pub use clearing::one_off_participant;
pub use forming::{form, form_for};
pub use half::Half;
pub use limits::{
    CATEGORIES, CURRENCIES, MAX_ACCOUNTS, MAX_MOVED, MAX_MOVEMENTS, MAX_SECURITIES, MEMBERS,
};
pub use movement::Movement;
pub use party::Party;
pub use side::Side;
pub use terms::{Setting, Terms};
pub use trade::{Trade, TradeSide};
