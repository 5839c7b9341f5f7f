use anyhow::anyhow;
use keyword_text::parse_keyword;
use keywords::Keyword;
use std::alloc::Global;
use std::env::Args;

// What the arguments ask for.
#[derive(Drop)]
pub struct Request {
    pub path: String,
    pub words: Vec<Keyword>,
    pub limit: u64,
}

impl Request {
    pub fn read(heap: Global, args: Args) -> anyhow::Result<Request> {
        let mut path = String::new(heap);
        let mut words = Vec::new(heap);
        let mut limit = u64::MAX;
        for arg in args.skip(1) {
            if let Some(number) = arg.as_str().strip_prefix("--limit=") {
                limit = number.parse::<u64>()?;
            } else if let Some(word) = arg.as_str().strip_prefix("--word=") {
                words.push(parse_keyword(word)?)?;
            } else {
                path = arg;
            }
        }
        if path.is_empty() {
            return Err(anyhow!("usage: tokens [--limit=N] [--word=SPELLING=KIND].. PLAN"));
        }
        Ok(Request { path, words, limit })
    }
}
