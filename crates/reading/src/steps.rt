ghost use Rattle.std.specs.Prelude.{◌≡◌, ◌+◌, ◌<◌, ◌≤◌, true, length, Ok, Err};
ghost use Rattle.theory.specs.Machine.{carry_start};
ghost use Rattle.outcome.specs.declared.Outcome.TheVariants.{More};
ghost use Rattle.machine.specs.Reading.{last_of, most_steps, place_of_next, shifting, reducing};
ghost use Rattle.reading.specs.Means.{reads};
ghost use Rattle.reading.specs.Steps.{finding, is_entered, carrying, landing_by, kind_of, listed, noted, counted, going, onward, Near};

use crate::CELLS;
use crate::state::Reading;
use outcome::{Halt, Outcome};
use sink::Sink;
use source::Source;
use syntax::{Symbol, Token};
use table::{Action, Slip, Table};

/// An action, and the token that it was found on: none at END, nor where a default spared the look.
#[derive(Clone, Copy)]
struct Found {
    action: Action,
    next: Option<Token>,
}

// The terminal that comes next; END is 0.
fn kind_of(next: Option<Token>) -> u8
    ensures { result ≡ kind_of next }
{
    next.map_or(0, |token| token.kind)
}

fn place_of(next: Option<Token>) -> Option<u32>
    ensures { result ≡ place_of_next (listed next) }
{
    next.map(|token| token.place)
}

// A state with a default does not look at the source, so that a fault behind it is told later.
fn find<T: Table, S: Source>(table: &T, source: &mut S, state: u8) -> Result<Found, Halt>
    ensures answer { result ≡ finding (T.Table.meaning table.now) state (S.Source.meaning source.old) }
    ensures same { S.Source.meaning source.new ≡ S.Source.meaning source.old }
{
    if let Some(production) = table.default_reduction(state) {
        return Ok(Found {
            action: Action::Reduce(production),
            next: None,
        });
    }
    let next = source.peek()?;
    Ok(Found {
        action: table.action(state, kind_of(next)),
        next,
    })
}

fn is_entered(entered: Option<Symbol>, wanted: Option<Symbol>) -> bool
    ensures { result ≡ is_entered entered wanted }
{
    entered.is_some() && entered == wanted
}

// Whether the states were entered, one for one and in order, by the right side of a production.
fn carries<T: Table>(table: &T, production: u8, states: &[u8]) -> bool
    requires { length states.now < 256 }
    ensures { result ≡ carrying (T.Table.meaning table.now) production 0 states.now }
{
    states.iter().enumerate().all(|(k, state)| is_entered(
        table.incoming(*state),
        table.right_symbol(production, k as u8),
    ))
}

// The last cell, else the initial state.
fn last_of(cells: &[u8]) -> u8
    ensures { result ≡ last_of cells.now }
{
    cells.last().copied().unwrap_or(0)
}

// An accept wants one cell, which the start entered.
fn accepts<T: Table>(table: &T, cells: &[u8]) -> bool
    ensures { result ≡ carry_start (T.Table.meaning table.now) cells.now }
{
    match cells {
        [state] => is_entered(table.incoming(*state), Some(Symbol::Nonterminal(0))),
        _ => false,
    }
}

/// Where a reduction leads: how many cells it pops, and the state that it then pushes.
#[derive(Clone, Copy)]
struct Landing {
    children: u8,
    to: u8,
}

// The right side must have entered the last cells, and the state below them must have a goto.
fn land<T: Table>(table: &T, production: u8, cells: &[u8]) -> Result<Landing, Halt>
    ensures answer { result ≡ landing_by (T.Table.meaning table.now) production cells.now }
    ensures within { elim result [ Ok l ↦ l.children ≤ length cells.now | Err h ↦ Unit {0} ] }
{
    let Some(rule) = table.production(production) else {
        return Err(Halt::Slip(Slip::FewCells));
    };
    let count = usize::from(rule.length);
    if cells.len() < count {
        return Err(Halt::Slip(Slip::FewCells));
    }
    let (below, top) = cells.split_at(cells.len() - count);
    if !carries(table, production, top) {
        return Err(Halt::Slip(Slip::WrongSymbol));
    }
    let Some(to) = table.goto(last_of(below), rule.left) else {
        return Err(Halt::Slip(Slip::NoGoto));
    };
    Ok(Landing {
        children: rule.length,
        to,
    })
}

impl<T: Table, S: Source, K: Sink> Reading<T, S, K> {
    // A shift sends the leaf, takes the token and pushes the state. No table shifts at END. The step is counted later.
    fn shift(&mut self, to: u8, next: Option<Token>) -> Result<(), Halt>
        ensures near { Near K.Sink self.old self.new }
        ensures outcome { self.new.outcome ≡ self.old.outcome }
        ensures after { counted result (reads T.Table S.Source.own K.Sink self.new) ≡ shifting K.Sink.algebra to (reads T.Table S.Source.own K.Sink self.old) (listed next) }
    {
        let Some(token) = next else {
            return Err(Halt::Slip(Slip::AtEnd));
        };
        if self.cells.is_full() {
            return Err(Halt::Cells { steps: self.steps });
        }
        self.sink.leaf(token)?;
        let _ = self.source.take();
        self.cells.push(to);
        Ok(())
    }

    // A reduce sends the node, pops its cells and pushes the goto. The step is counted later.
    fn reduce(&mut self, production: u8) -> Result<(), Halt>
        ensures near { Near K.Sink self.old self.new }
        ensures outcome { self.new.outcome ≡ self.old.outcome }
        ensures after { counted result (reads T.Table S.Source.own K.Sink self.new) ≡ reducing K.Sink.algebra production ((T.Table.meaning self.old.table).grammar production) (reads T.Table S.Source.own K.Sink self.old) }
    {
        let landing = land(&self.table, production, &self.cells)?;
        let under = self.cells.len() - usize::from(landing.children);
        if under == CELLS {
            return Err(Halt::Cells { steps: self.steps });
        }
        self.sink.node(production, landing.children)?;
        self.cells.truncate(under);
        self.cells.push(landing.to);
        Ok(())
    }

    // Whether one of `left` steps was made, not yet counted; a halt is noted by the caller. What is done depends on the
    // outcome so far and on the action together, and without a step left only an accept or a reject does anything.
    fn step(&mut self, left: u16) -> Result<bool, Halt>
        requires running { self.old.outcome ≡ More }
        ensures near { Near K.Sink self.old self.new }
        ensures on { result ≡ Ok true → (0 < left) × (self.new.outcome ≡ More) }
        ensures after { onward K.Sink.algebra left result (reads T.Table S.Source.own K.Sink self.new) ≡ going K.Sink.algebra left (reads T.Table S.Source.own K.Sink self.old) }
    {
        let state = last_of(&self.cells);
        let found = find(&self.table, &mut self.source, state)?;
        match (self.outcome, found.action) {
            (Outcome::More, Action::Shift(to)) if left > 0 => {
                self.shift(to, found.next)?;
                Ok(true)
            }
            (Outcome::More, Action::Reduce(production)) if left > 0 => {
                self.reduce(production)?;
                Ok(true)
            }
            (Outcome::More, Action::Shift(_) | Action::Reduce(_)) => Ok(false),
            (Outcome::More, Action::Accept) => {
                if !accepts(&self.table, &self.cells) {
                    return Err(Halt::Slip(Slip::AtEnd));
                }
                self.outcome = Outcome::Accepted;
                Ok(false)
            }
            (Outcome::More, Action::Reject) => {
                self.outcome = Outcome::Rejected {
                    at: place_of(found.next),
                };
                Ok(false)
            }
            (
                Outcome::Accepted
                | Outcome::Rejected { .. }
                | Outcome::Halted(_)
                | Outcome::Stopped,
                _,
            ) => Ok(false),
        }
    }

    // Up to `n` steps, before a halt is noted.
    pub(crate) fn advance(&mut self, n: u16) -> Result<(), Halt>
        requires running { self.old.outcome ≡ More }
        requires few { self.old.steps + n ≤ most_steps }
        ensures table { self.new.table ≡ self.old.table }
        ensures memory { K.Sink.grows self.old.sink self.new.sink }
        ensures after { noted result (reads T.Table S.Source.own K.Sink self.new) ≡ going K.Sink.algebra n (reads T.Table S.Source.own K.Sink self.old) }
    {
        for left in (0..=n).rev() {
            if !self.step(left)? {
                break;
            }
            self.steps += 1;
        }
        Ok(())
    }
}
