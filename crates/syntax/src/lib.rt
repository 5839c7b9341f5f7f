//! What a plan is made of: its tokens, and the symbols and productions of its grammar.
#![tactic(auto)]

/// The kind of a word that is no keyword.
pub const WORD: u8 = 1;

/// The kind of a number.
pub const NUMBER: u8 = 2;

/// A piece of a plan. Its kind is the terminal that it stands for, 1 to 31; terminal 0, END, is no token.
#[derive(Clone, Copy, PartialEq, Eq, Debug)]
pub struct Token {
    pub kind: u8,
    pub place: u32,
    pub length: u32,
    pub value: u64,
}

#[derive(Clone, Copy, PartialEq, Eq, Debug)]
pub enum Symbol {
    Terminal(u8),
    Nonterminal(u8),
}

/// What a reduction needs of a production: its left side, and how many symbols its right side has.
#[derive(Clone, Copy, PartialEq, Eq, Debug)]
pub struct Production {
    pub left: u8,
    pub length: u8,
}
