use anyhow::anyhow;
use keyword_text::parse_keyword;
use keywords::Keyword;
use std::alloc::{AllocError, Global};

pub const USAGE: &str = "usage: readplan [OPTIONS] SHEET PLAN
  checks SHEET, reads PLAN by it, and prints the record: a line an event, the outcome, the steps, and after accepted
  the minutes and the span
  --turns N,N,..        the turns to make, with a line for each; else turns of 65535 until the end, a thousand at most
  --limit N             so many tokens pass
  --word SPELLING=KIND  a keyword; up to 16
  --quota N             so many events are taken
  --records N           places of the trace; else 65536
  --cells N             cells of the totals; else 128
  --raw                 only open the sheet, so that slips can be seen
  --batch FILE          read each line of FILE as the words of a command, with a line of its own in front of each record";

const LONGEST_TURN: u16 = 65_535;

const MOST_TURNS: usize = 1000;

/// What the words of a command ask for.
#[derive(Drop)]
pub struct Request {
    pub sheet: String,
    pub plan: String,
    pub words: Vec<Keyword>,
    pub turns: Vec<u16>,
    pub shows_turns: bool,
    pub limit: u64,
    pub quota: u64,
    pub records: usize,
    pub cells: usize,
    pub raw: bool,
}

impl Request {
    fn new(heap: Global) -> Request {
        Request {
            sheet: String::new(heap),
            plan: String::new(heap),
            words: Vec::new(heap),
            turns: Vec::new(heap),
            shows_turns: false,
            limit: u64::MAX,
            quota: u64::MAX,
            records: 65_536,
            cells: 128,
            raw: false,
        }
    }

    /// Reads the words of a command.
    pub fn read(heap: Global, words: &[String]) -> anyhow::Result<Request> {
        let mut request = Request::new(heap);
        let mut words = words.iter();
        while let Some(word) = words.next() {
            let word = word.as_str();
            match word {
                "--raw" => request.raw = true,
                "--turns" | "--limit" | "--word" | "--quota" | "--records" | "--cells" => {
                    let Some(value) = words.next() else {
                        return Err(anyhow!(format!(in heap; "{word} wants a value")?));
                    };
                    request.set(word, value.as_str())?;
                }
                _ => request.name(heap, word)?,
            }
        }
        if request.plan.is_empty() {
            return Err(anyhow!("a sheet and a plan are wanted"));
        }
        request.fill_turns()?;
        Ok(request)
    }

    // An option with a value.
    fn set(&mut self, option: &str, value: &str) -> anyhow::Result<()> {
        match option {
            "--turns" => self.add_turns(value)?,
            "--limit" => self.limit = value.parse::<u64>()?,
            "--word" => self.words.push(parse_keyword(value)?)?,
            "--quota" => self.quota = value.parse::<u64>()?,
            "--records" => self.records = value.parse::<usize>()?,
            _ => self.cells = value.parse::<usize>()?,
        }
        Ok(())
    }

    fn add_turns(&mut self, list: &str) -> anyhow::Result<()> {
        self.shows_turns = true;
        for n in list.split(',') {
            self.turns.push(n.parse::<u16>()?)?;
        }
        Ok(())
    }

    // The sheet first, then the plan.
    fn name(&mut self, heap: Global, word: &str) -> anyhow::Result<()> {
        if word.starts_with('-') {
            return Err(anyhow!(format!(in heap; "unknown option {word}")?));
        }
        if self.sheet.is_empty() {
            self.sheet = String::from_str(heap, word)?;
        } else if self.plan.is_empty() {
            self.plan = String::from_str(heap, word)?;
        } else {
            return Err(anyhow!(format!(in heap; "one word too many: {word}")?));
        }
        Ok(())
    }

    // Where no turns are asked for, the longest, more than enough for every plan.
    fn fill_turns(&mut self) -> Result<(), AllocError> {
        if !self.shows_turns {
            for _ in 0..MOST_TURNS {
                self.turns.push(LONGEST_TURN)?;
            }
        }
        Ok(())
    }
}
