use checker::CheckedSheet;
use layout::Refusal;
use outcome::Report;
use reading::Reading;
use sheet::RawSheet;
use sink::Sink;
use source::Source;
use table::Table;

/// A kind of sheet that a plan is read by.
pub trait Sheet<'a>: Table + Copy + Drop {
    /// The sheet in these bytes, or what is refused of them.
    fn load(bytes: &'a [u8]) -> Result<Self, Refusal>;

    /// How a reading by it stands.
    fn tell<S: Source, K: Sink>(reading: &Reading<Self, S, K>) -> Report;
}

/// A sheet that was only opened, so that slips can be seen.
impl<'a> Sheet<'a> for RawSheet<'a> {
    fn load(bytes: &'a [u8]) -> Result<RawSheet<'a>, Refusal> {
        RawSheet::from_bytes(bytes)
    }

    fn tell<S: Source, K: Sink>(reading: &Reading<RawSheet<'a>, S, K>) -> Report {
        reading.report()
    }
}

/// A checked sheet tells by a mark. Before the end a mark is declined, and a report tells how far the reading is.
impl<'a> Sheet<'a> for CheckedSheet<'a> {
    fn load(bytes: &'a [u8]) -> Result<CheckedSheet<'a>, Refusal> {
        CheckedSheet::from_bytes(bytes)
    }

    fn tell<S: Source, K: Sink>(reading: &Reading<CheckedSheet<'a>, S, K>) -> Report {
        match reading.mark() {
            Ok(report) => report,
            Err(_) => reading.report(),
        }
    }
}
