//! What the bytes of a plan mean as tokens: the definitions, the law that they keep, and the lemmas of the lexer.
#![tactic(auto)]
