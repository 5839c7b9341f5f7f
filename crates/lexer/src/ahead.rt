use source::SourceFault;

// What a lexer knows of the item behind its position. An `Option` of what a peek answers took twice the time on marks that are
// peeked, and what a peek answers alone wants a look before one is asked for.
#[derive(Clone, Copy)]
pub(crate) enum Ahead {
    // Nothing: it was not looked at yet.
    Unread,
    // It is the token that the lexer remembers, and the position is already behind it.
    Seen,
    // There is none.
    Ended,
    // It is a fault. Nothing behind it is ever read.
    Stuck(SourceFault),
}
