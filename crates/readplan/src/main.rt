//! Checks a sheet, reads a plan by it from beginning to end, and prints the record.
#![tactic(auto)]

use crate::request::{Request, USAGE};
use crate::session::Session;
use crate::sheets::Sheet;
use anyhow::anyhow;
use checker::CheckedSheet;
use pile::Plan;
use sheet::RawSheet;
use std::{env, fs};

mod request;
mod session;
mod sheets;
mod show;

fn load(rt: &HostRuntime, name: &str) -> anyhow::Result<Vec<u8>> {
    match fs::read(rt, name) {
        Ok(bytes) => Ok(bytes),
        Err(error) => Err(anyhow!(format!(in rt.alloc(); "{name}: {error}")?)),
    }
}

// Reads the plan by the sheet in these bytes; whether nothing was refused.
fn read_by<'s, T: Sheet<'s>>(
    rt: &'s HostRuntime,
    request: &'s Request,
    bytes: &'s [u8],
    plan: &'s [u8],
) -> anyhow::Result<bool> {
    let sheet = match T::load(bytes) {
        Ok(sheet) => sheet,
        Err(refusal) => {
            println!(rt; "sheet refused {refusal}")?;
            return Ok(false);
        }
    };
    let plan = Plan {
        text: plan,
        words: request.words.as_slice(),
        limit: request.limit,
    };
    Session {
        rt,
        request,
        plan,
        sheet,
    }
    .record()
}

// One command; whether nothing was refused.
fn obey(rt: &HostRuntime, words: &[String]) -> anyhow::Result<bool> {
    let request = Request::read(rt.alloc(), words)?;
    let bytes = load(rt, request.sheet.as_str())?;
    let plan = load(rt, request.plan.as_str())?;
    if request.raw {
        read_by::<RawSheet<'_>>(rt, &request, bytes.as_slice(), plan.as_slice())
    } else {
        read_by::<CheckedSheet<'_>>(rt, &request, bytes.as_slice(), plan.as_slice())
    }
}

// A command a line, each with its record or what was wrong with it.
fn obey_each(rt: &HostRuntime, name: &str) -> anyhow::Result<()> {
    let heap = rt.alloc();
    let text = fs::read_to_string(rt, name)?;
    for line in text.lines() {
        println!(rt; "$ readplan {line}")?;
        let mut words = Vec::new(heap);
        for word in line.split_ascii_whitespace() {
            words.push(String::from_str(heap, word)?)?;
        }
        if let Err(error) = obey(rt, words.as_slice()) {
            println!(rt; "error: {error}")?;
        }
    }
    Ok(())
}

fn run(rt: &HostRuntime) -> anyhow::Result<()> {
    let words: Vec<String> = env::args(rt)?.skip(1).collect(rt.alloc())?;
    match words.as_slice() {
        [option] if option.as_str() == "--help" => return Ok(rt.println(USAGE)?),
        [option, name] if option.as_str() == "--batch" => return obey_each(rt, name.as_str()),
        _ => {}
    }
    if obey(rt, words.as_slice())? {
        Ok(())
    } else {
        Err(anyhow!("the sheet or the plan was refused"))
    }
}

fn main(rt: HostRuntime) -> anyhow::Result<()> {
    run(&rt)
}
