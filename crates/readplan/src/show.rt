use outcome::{Declined, Outcome};
use std::io;

/// A line for a turn.
pub fn show_turn(rt: &HostRuntime, n: u16, answer: Result<Outcome, Declined>) -> io::Result<()> {
    match answer {
        Ok(outcome) => println!(rt; "turn {n}: {outcome}"),
        Err(declined) => println!(rt; "turn {n}: declined {declined}"),
    }
}

/// A line for each record of a trace. Behind the last one the bytes are zero, as they were before.
pub fn show_events(rt: &HostRuntime, bytes: &[u8]) -> io::Result<()> {
    let (records, _) = bytes.as_chunks::<16>();
    for record in records {
        match *record {
            [b'L', kind, _, _, a, b, c, d, ..] => {
                println!(rt; "L {kind} {}", u32::from_be_bytes([a, b, c, d]))?;
            }
            [b'N', production, children, ..] => println!(rt; "N {production} {children}")?,
            _ => return Ok(()),
        }
    }
    Ok(())
}
