use source::Source;
use std::io;
use syntax::Token;

// Prints all that a source has to give.
pub fn show<S: Source>(rt: &HostRuntime, source: &mut S) -> io::Result<()> {
    loop {
        match source.take() {
            Ok(Some(token)) => show_token(rt, token)?,
            Ok(None) => return println!(rt; "    END"),
            Err(fault) => return println!(rt; "    fault {fault}, layer {}", fault.layer()),
        }
    }
}

pub fn show_token(rt: &HostRuntime, token: Token) -> io::Result<()> {
    println!(rt;
        "    kind {} at {}, length {}, value {}",
        token.kind, token.place, token.length, token.value
    )
}
