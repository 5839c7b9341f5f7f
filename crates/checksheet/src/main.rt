//! Tells of each file whether it is a well-formed sheet, and what is refused of one that is not.
#![tactic(auto)]

ghost use Rattle.std.specs.Prelude.{◌≡◌};
ghost use Rattle.checksheet.specs.Judged.{judged, why};

use anyhow::anyhow;
use layout::Refusal;
use sheet::RawSheet;
use std::{env, fs, io};

const USAGE: &str = "usage: checksheet [--no-fail] FILE..
  tells of each file whether it is a well-formed sheet; the status is 1 if one was refused or could not be read
  --no-fail   the status is 0 where files were only refused";

/// The number of records of a well-formed sheet, or what is refused of the bytes.
fn judge(bytes: &[u8]) -> Result<usize, Refusal>
    ensures { result ≡ judged bytes.now }
{
    let sheet = RawSheet::from_bytes(bytes)?;
    Ok(sheet.records())
}

fn words(refusal: Refusal) -> &'static str
    ensures { result.now ≡ why refusal }
{
    match refusal {
        Refusal::Length => "no bytes, above 65,520, or no whole number of records",
        Refusal::Order { .. } => "the key of this record is not above the one before",
        Refusal::Range { .. } => "a byte of this record is out of range, or its set is empty",
        Refusal::Absent { .. } =>
            "this record names what is absent or leaves a gap, or a kind of record is missing",
        Refusal::Contradiction { .. } => "this record contradicts another",
        Refusal::Unsafe { .. } => "a reading could slip on this record",
        Refusal::Incomplete { .. } => "a reading could refuse a good plan by this record",
    }
}

/// How it went with a file, the worst last.
#[derive(Clone, Copy, PartialEq, Eq, PartialOrd, Ord)]
enum Told {
    WellFormed,
    Refused,
    Unread,
}

fn tell(rt: &HostRuntime, name: &str) -> io::Result<Told> {
    let bytes = match fs::read(rt, name) {
        Ok(bytes) => bytes,
        Err(error) => {
            eprintln!(rt; "{name}: {error}")?;
            return Ok(Told::Unread);
        }
    };
    match judge(bytes.as_slice()) {
        Ok(records) => {
            println!(rt; "{name}: well-formed, {records} records")?;
            Ok(Told::WellFormed)
        }
        Err(refusal) => {
            println!(rt; "{name}: refused {refusal}: {}", words(refusal))?;
            Ok(Told::Refused)
        }
    }
}

fn main(rt: HostRuntime) -> anyhow::Result<()> {
    let mut worst = None;
    let mut lenient = false;
    for arg in env::args(&rt)?.skip(1) {
        match arg.as_str() {
            "--help" => return Ok(rt.println(USAGE)?),
            "--no-fail" => lenient = true,
            name => worst = worst.max(Some(tell(&rt, name)?)),
        }
    }
    match worst {
        None => {
            rt.eprintln(USAGE)?;
            Err(anyhow!("no file was named"))
        }
        Some(Told::WellFormed) => Ok(()),
        Some(Told::Refused) if lenient => Ok(()),
        Some(Told::Refused | Told::Unread) => Err(anyhow!(
            "a file was refused or could not be read"
        )),
    }
}
