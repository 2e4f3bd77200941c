//! What a book keeps of its day, its members and its movements.
ghost use Rattle.std.specs.Prelude.{◌≡◌, ◌≤◌, true};
ghost use Rattle.arrayvec.specs.ArrayVec.{array_vec_len};
ghost use Rattle.movement.specs.Limits.{most_movements};
ghost use Rattle.movement.specs.Bounds.{all_fit};
ghost use Rattle.movement.specs.Terms.{accounts_of};
ghost use Rattle.book.specs.Rising.{IsRising};

use crate::paying::is_movable;
use arrayvec::ArrayVec;
use fault::{Fault, ask};
use movement::{CURRENCIES, Class, Half, MAX_MOVEMENTS, Movement, Setting, Terms, Trade, form};

/// How many days ahead a trade can settle.
pub const LONGEST_WAIT: u32 = 30;

/// The day, the members and the movements of a book.
#[derive(Drop)]
pub struct Daybook {
    // the number of securities, 0 where the opening failed
    // Stays: the new form is no plainer: the rules' state notes 0 there (docs/DECISIONS.md).
    kinds: u8,
    day: u32,
    half: Half,
    // the highest trade number accepted
    highest: u32,
    // the terms know the number of accounts, 0 where the opening failed
    terms: Terms,
    movements: ArrayVec<Movement, MAX_MOVEMENTS>,
    // the numbers of every movement are within their bounds
    ghost bounds: { all_fit (accounts_of terms) kinds movements.items ≡ true },
    // they rise, and none is above the highest number accepted
    ghost rising: { IsRising highest movements.items },
    // they are no more than a book holds
    ghost few: { array_vec_len movements ≤ most_movements },
}

impl Daybook {
    ghost use Rattle.std.specs.Prelude.{◌<◌, is_ok, None, position, MatchOption};
    ghost use Rattle.fault.specs.Questions.{asked};
    ghost use Rattle.book.specs.Books.{daily_of};
    ghost use Rattle.book.specs.Daily.{basic_questions, trade_questions, class_known, traded};
    ghost use Rattle.book.specs.Daily.{cancellable, has_number, on_book};
    ghost use Rattle.book.specs.Found.{FoundAt};
    ghost use Rattle.book.specs.Opening.{morning};
    ghost use Rattle.book.specs.Trading.{AgreedTo, Cancelled, ConsentedTo, Entered};

    /// The first morning of a book with so many accounts and securities.
    pub(crate) fn new(accounts: u8, kinds: u8, day: u32) -> Daybook
        ensures { daily_of result ≡ morning accounts kinds day }
    {
        Daybook {
            kinds,
            day,
            half: Half::Morning,
            highest: 0,
            terms: Terms::new(accounts),
            movements: ArrayVec::new(),
        }
    }

    /// Sets the terms of one category of one member.
    pub(crate) fn agree(&mut self, setting: Setting) -> Result<(), Fault>
        ensures { AgreedTo (daily_of self.old) setting result (daily_of self.new) }
    {
        self.terms.agree(setting)
    }

    /// Asks what is asked of a trade before its sides, and answers its class.
    fn class_of(&self, trade: Trade) -> Result<Class, Fault>
        ensures { result
            ≡ asked (basic_questions (daily_of self.now) trade) (class_known trade.class) }
    {
        ask(
            trade.number >= 1 && trade.number > self.highest,
            Fault::TradeNumber,
        )?;
        let class = Class::try_from(trade.class)?;
        ask(trade.security < self.kinds, Fault::UnknownSecurity)?;
        ask(is_movable(trade.quantity), Fault::QuantityRange)?;
        ask(
            usize::from(trade.currency) < CURRENCIES,
            Fault::UnknownCurrency,
        )?;
        ask(is_movable(trade.sum), Fault::TradeSum)?;
        let day = u32::from(trade.day);
        ask(
            day >= self.day && day - self.day <= LONGEST_WAIT,
            Fault::SettlementDay,
        )?;
        Ok(class)
    }

    /// Asks every question of a trade, and answers the movement that it forms.
    fn formed(&self, trade: Trade) -> Result<Movement, Fault>
        ensures formed { result ≡ asked (trade_questions (daily_of self.now) trade)
            (traded (daily_of self.now) trade) }
        ensures room { is_ok result ≡ true → array_vec_len self.now.movements < most_movements }
    {
        let class = self.class_of(trade)?;
        let movement = form(&self.terms, class, trade)?;
        ask(self.movements.len() < MAX_MOVEMENTS, Fault::BookFull)?;
        Ok(movement)
    }

    /// Enters a trade: its movement is the newest.
    pub(crate) fn trade(&mut self, trade: Trade) -> Result<(), Fault>
        ensures { Entered (daily_of self.old) trade result (daily_of self.new) }
    {
        let movement = self.formed(trade)?;
        self.highest = trade.number;
        self.movements.push(movement);
        Ok(())
    }

    /// Where the movement of a number stands.
    fn find(&self, number: u32) -> Option<usize>
        ensures place { result ≡ position (has_number number) self.now.movements.items }
        ensures found { MatchOption result (on_book number self.now.movements.items ≡ None)
            (FoundAt self.now.movements.items number) }
    {
        self.movements.iter().position(|m| m.number == number)
    }

    /// Takes a participant's consent to every duty that it has in a movement.
    pub(crate) fn consent(&mut self, number: u32, participant: u8) -> Result<(), Fault>
        ensures { ConsentedTo (daily_of self.old) number participant result (daily_of self.new) }
    {
        let i = self.find(number).ok_or(Fault::NotOnBook)?;
        // Stays: the new form is no plainer: what a consent changes is one rule, which the movement
        // has.
        let movement = self.movements[i];
        ask(movement.has_duty(participant), Fault::NoDuty)?;
        ask(movement.is_silent(participant), Fault::AlreadyConsented)?;
        self.movements[i] = movement.consented(participant, self.half);
        Ok(())
    }

    /// Whether a movement can still be cancelled: before its day, or on its morning.
    fn is_cancellable(&self, movement: Movement) -> bool
        ensures { result ≡ cancellable (daily_of self.now) movement }
    {
        let day = u32::from(movement.day);
        match self.half {
            Half::Morning => self.day <= day,
            Half::Afternoon => self.day < day,
        }
    }

    /// Cancels a movement: it leaves the book.
    pub(crate) fn cancel(&mut self, number: u32) -> Result<(), Fault>
        ensures { Cancelled (daily_of self.old) number result (daily_of self.new) }
    {
        let i = self.find(number).ok_or(Fault::NotOnBook)?;
        ask(self.is_cancellable(self.movements[i]), Fault::CancelTooLate)?;
        self.movements.remove(i);
        Ok(())
    }
}
