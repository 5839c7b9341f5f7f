ghost use Rattle.std.specs.Prelude.{◌≡◌, ◌≤◌, false, [], length, Some, Ok, Err, IfOk, MatchResult};
ghost use Rattle.lexing.specs.Plans.{lexed_from};
ghost use Rattle.lexing.specs.Reading.{TheReading};
ghost use Rattle.lexer.specs.Looking.{is_unread, unread, stream, stream_kinded};
ghost use Rattle.lexer.specs.Opening.{open_answer, open_after};

use crate::Lexer;
use crate::ahead::Ahead;
use crate::opening::PlanRefusal;
use crate::scan::{blanks, item};
use source::{Layered, Source, SourceFault};
use syntax::{Token, WORD};

impl<'a> Lexer<'a> {
    /// A lexer of the empty plan.
    pub fn empty() -> Lexer<'a>
        ensures { stream result ≡ lexed_from 0 [] }
    {
        Lexer::over(&[])
    }

    /// A lexer of the whole of a plan, unless the plan is refused.
    pub fn new(plan: &'a [u8]) -> Result<Lexer<'a>, PlanRefusal>
        ensures answer { MatchResult result
            (λ _. open_answer plan.now ≡ Ok tt)
            (λ refusal. open_answer plan.now ≡ Err refusal) }
        ensures stream { IfOk result (λ lexer. stream lexer ≡ lexed_from 0 plan.now) }
        ensures reading { IfOk result (λ lexer. TheReading plan.now (stream lexer)) }
    {
        if plan.len() > 65_535 {
            return Err(PlanRefusal::TooLong);
        }
        Ok(Lexer::over(plan))
    }

    /// Turns to the whole of a plan, or refuses it and stays as it is.
    pub fn open(&mut self, plan: &'a [u8]) -> Result<(), PlanRefusal>
        ensures answer { result ≡ open_answer plan.now }
        ensures after { stream self.new ≡ open_after plan.now (stream self.old) }
        ensures reading { result ≡ Ok tt → TheReading plan.now (stream self.new) }
    {
        *self = Lexer::new(plan)?;
        Ok(())
    }

    // A lexer at the start of a plan. No token is remembered yet.
    fn over(plan: &'a [u8]) -> Lexer<'a>
        requires { length plan.now ≤ 65535 }
        ensures { stream result ≡ lexed_from 0 plan.now }
    {
        let token = Token {
            kind: WORD,
            place: 0,
            length: 0,
            value: 0,
        };
        Lexer {
            plan,
            at: 0,
            ahead: Ahead::Unread,
            token,
        }
    }

    // Scans the item behind the position and remembers what it is.
    fn scan(&mut self)
        ensures same { stream self.new ≡ unread self.old }
        ensures looked { is_unread self.new.ahead ≡ false }
    {
        let start = self.at + blanks(&self.plan[self.at..]);
        if start == self.plan.len() {
            self.ahead = Ahead::Ended;
            return;
        }
        match item(&self.plan[start..], start as u32) {
            Ok(token) => {
                self.at = start + token.length as usize;
                self.token = token;
                self.ahead = Ahead::Seen;
            }
            Err(fault) => self.ahead = Ahead::Stuck(fault),
        }
    }

    // Sees to it that the item behind the position is known: nothing is unread behind a look.
    fn look(&mut self)
        ensures same { stream self.new ≡ stream self.old }
        ensures looked { is_unread self.new.ahead ≡ false }
    {
        if let Ahead::Unread = self.ahead {
            self.scan();
        }
    }
}

impl Layered for Lexer<'_> {
    ghost layer = { 0 };

    fn layer_number() -> u8
        ensures { result ≡ 0 }
    {
        source::BOTTOM
    }
}

impl Source for Lexer<'_> {
    ghost meaning = { stream };

    ghost kinded = { stream_kinded };

    fn peek(&mut self) -> Result<Option<Token>, SourceFault> {
        self.look();
        match self.ahead {
            Ahead::Seen => Ok(Some(self.token)),
            Ahead::Stuck(fault) => Err(fault),
            Ahead::Ended | Ahead::Unread => Ok(None),
        }
    }

    fn take(&mut self) -> Result<Option<Token>, SourceFault> {
        self.look();
        match self.ahead {
            Ahead::Seen => {
                self.ahead = Ahead::Unread;
                Ok(Some(self.token))
            }
            Ahead::Stuck(fault) => Err(fault),
            Ahead::Ended | Ahead::Unread => Ok(None),
        }
    }
}
