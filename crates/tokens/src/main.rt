//! Prints the tokens of a plan: a line for each with its kind, place, length and value, and then the ending.
//!
//! `tokens [--limit=N] [--word=SPELLING=KIND].. PLAN` reads the file PLAN. Words of the given spellings get the given
//! kinds, and at most N tokens pass.
#![tactic(auto)]

use crate::listed_plan::list_plan;
use crate::listing::Listing;
use crate::refusal::Refusal;
use crate::request::Request;
use pile::{PileRefusal, Plan};
use std::{env, fs, io};

mod listed_plan;
mod listing;
mod refusal;
mod request;

fn show(rt: &HostRuntime, listing: &Listing) -> io::Result<()> {
    println!(rt; "kind place length value")?;
    for token in listing.tokens.iter() {
        println!(rt;
            "{} {} {} {}",
            token.kind, token.place, token.length, token.value
        )?;
    }
    match listing.fault {
        None => println!(rt; "END"),
        Some(fault) => println!(rt; "fault {fault}, layer {}", fault.layer()),
    }
}

fn show_refusal(rt: &HostRuntime, refusal: Refusal) -> io::Result<()> {
    match refusal {
        Refusal::Plan(PileRefusal::Plan(long)) => println!(rt; "plan refused: {long}"),
        Refusal::Plan(PileRefusal::Word(refused)) => println!(rt; "keyword refused: {refused}"),
        Refusal::Memory => println!(rt; "no memory"),
    }
}

fn run(rt: &HostRuntime) -> anyhow::Result<()> {
    let heap = rt.alloc();
    let request = Request::read(heap, env::args(rt)?)?;
    let text = fs::read(rt, request.path.as_str())?;
    let plan = Plan {
        text: text.as_slice(),
        words: request.words.as_slice(),
        limit: request.limit,
    };
    match list_plan(heap, plan) {
        Ok(listing) => show(rt, &listing)?,
        Err(refusal) => show_refusal(rt, refusal)?,
    }
    Ok(())
}

fn main(rt: HostRuntime) -> anyhow::Result<()> {
    run(&rt)
}
