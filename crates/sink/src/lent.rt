ghost use Rattle.std.specs.Prelude.{◌≡◌, refl};
ghost use Rattle.std.proofs.Common.{◌∙◌};

use crate::{Sink, SinkFault};
use syntax::Token;

/// A sink that is lent is a sink: what it means is what the sink behind it means.
impl<'b, K: Sink> Sink for &'b mut K {
    ghost Value = { K.Sink.Value };

    ghost algebra = { K.Sink.algebra };

    ghost meaning = { λ s. K.Sink.meaning s.now };

    ghost grows = { λ a b. (b.ghost_name ≡ a.ghost_name) × K.Sink.grows a.now b.now };

    ghost still = { λ s. (refl, K.Sink.still s.now) };

    ghost onward = { λ a b c p q. (q.0 ∙ p.0, K.Sink.onward a.now b.now c.now p.1 q.1) };

    fn trees(&self) -> u64 {
        (**self).trees()
    }

    fn leaf(&mut self, token: Token) -> Result<(), SinkFault> {
        (**self).leaf(token)
    }

    fn node(&mut self, production: u8, children: u8) -> Result<(), SinkFault> {
        (**self).node(production, children)
    }
}
