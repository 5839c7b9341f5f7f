use syntax::Token;

pub const ON: Token = Token {
    kind: 1,
    place: 0,
    length: 2,
    value: 28526,
};

pub const OFF: Token = Token {
    kind: 1,
    place: 3,
    length: 3,
    value: 7300710,
};
