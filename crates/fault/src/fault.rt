//! The reasons for which a call is refused, each with its number and its sentence.
ghost use Rattle.std.specs.Prelude.{◌≡◌};
ghost use Rattle.register.specs.Refusals.{refusal_number};
ghost use Rattle.fault.specs.Numbers.{fault_number};
ghost use Rattle.fault.specs.Refusals.{passed_up};

use register::Refusal;
use thiserror::Error;

/// Why a call is refused; what it prints is the reason in words.
#[derive(Clone, Copy, PartialEq, Eq, Debug, Error)]
pub enum Fault {
    // at the opening
    #[error("the registers have not the same number of accounts, from 2 to 32")]
    AccountCount = 1,
    #[error("there are not 1 to 16 securities and 2 currencies")]
    KindCount = 2,
    #[error("a kind's sum over all accounts is above the limit")]
    OpeningSum = 3,
    #[error("the first day is above 60,000")]
    FirstDay = 4,
    // of a place and an amount
    #[error("the side is neither securities nor cash")]
    UnknownSide = 10,
    #[error("the kind is not known")]
    UnknownKind = 11,
    #[error("the account is not known, or not a participant's")]
    UnknownAccount = 12,
    #[error("the amount is not from 1 to 10^12")]
    AmountRange = 13,
    #[error("the kind's sum would pass 10^15")]
    SumRange = 14,
    #[error("the account holds less")]
    HoldsLess = 15,
    // of a trade
    #[error("the number is not above every one accepted")]
    TradeNumber = 20,
    #[error("the class is neither central nor direct")]
    UnknownClass = 21,
    #[error("the security is not known")]
    UnknownSecurity = 22,
    #[error("the quantity is not from 1 to 10^12")]
    QuantityRange = 23,
    #[error("the currency is neither litas nor euro")]
    UnknownCurrency = 24,
    #[error("the sum is not from 1 to 10^12")]
    TradeSum = 25,
    #[error("the day of settlement is not from today to 30 days on")]
    SettlementDay = 26,
    #[error("no terms are set for the member")]
    NoTerms = 27,
    #[error("the category is not known")]
    UnknownCategory = 28,
    #[error("the clearing field is neither blank nor V, R or T and three digits")]
    ClearingField = 29,
    #[error("the clearing field's letter is not V")]
    ClearingLetter = 30,
    #[error("the clearing field names no participant")]
    ClearingParticipant = 31,
    #[error("128 movements are on the book")]
    BookFull = 32,
    // of terms
    #[error("the member is not from 1 to 16")]
    UnknownMember = 40,
    #[error("the category of the terms is not known")]
    TermsCategory = 41,
    #[error("a custodian is not a participant")]
    TermsCustodian = 42,
    // of a movement on the book
    #[error("no such movement is on the book")]
    NotOnBook = 50,
    #[error("the participant is neither giver nor payer")]
    NoDuty = 51,
    #[error("the participant has consented already")]
    AlreadyConsented = 52,
    #[error("the morning of the day of settlement is over")]
    CancelTooLate = 53,
    // of a frame
    #[error("the line is not 2 to 76 hexadecimal digits, an even number")]
    NoFrame = 80,
    #[error("the code is not offered")]
    UnknownCode = 81,
    #[error("the length does not fit the code")]
    FrameLength = 82,
    // by a register
    // Stays: the new form is no plainer: a variant that held the register's refusal would have no
    // number.
    #[error("the register does not know the kind")]
    RegisterUnknownKind = 91,
    #[error("the register does not know the account")]
    RegisterUnknownAccount = 92,
    #[error("the register's account holds less")]
    RegisterHoldsLess = 93,
    #[error("the register's account would pass 10^15")]
    RegisterOverLimit = 94,
}

impl Fault {
    /// The number that a refused call returns.
    pub fn number(&self) -> u8
        ensures { result ≡ fault_number self.now }
    {
        *self as u8
    }
}

/// A register's refusal passes up as it is, by the register's own number.
// Stays: the new form is no plainer: a derived conversion makes a variant that holds the refusal,
// which could have no number, and has no contract by which a `?` is known to give it.
impl From<Refusal> for Fault {
    ghost from_gives = { λ refusal f. f ≡ passed_up refusal };

    fn from(refusal: Refusal) -> Fault
        ensures fault { result ≡ passed_up refusal }
        ensures number { fault_number result ≡ refusal_number refusal }
    {
        match refusal {
            Refusal::UnknownKind => Fault::RegisterUnknownKind,
            Refusal::UnknownAccount => Fault::RegisterUnknownAccount,
            Refusal::HoldsLess => Fault::RegisterHoldsLess,
            Refusal::OverLimit => Fault::RegisterOverLimit,
        }
    }
}
