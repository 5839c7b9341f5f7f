use source::SourceFault;
use syntax::Token;

// The tokens of a source, and the fault that ends it; at END there is none.
#[derive(Drop)]
pub struct Listing {
    pub tokens: Vec<Token>,
    pub fault: Option<SourceFault>,
}
