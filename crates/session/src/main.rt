// Runs the session of a text, that of the named file or of standard input, and prints what it gives.
#![tactic(auto)]

mod input;
mod trouble;

use console::run::run;
use input::read_text;
use std::io::Write;
use std::process::ExitCode;
use trouble::Trouble;

fn session(rt: &HostRuntime) -> Result<(), Trouble> {
    let text = read_text(rt)?;
    let printed = run(rt.alloc(), &text)?;
    rt.stdout().write_all(&printed).map_err(Trouble::Unwritten)
}

fn main(rt: HostRuntime) -> ExitCode {
    match session(&rt) {
        Ok(()) => ExitCode::SUCCESS,
        Err(trouble) => {
            let _ = eprintln!(rt; "session: {trouble}");
            ExitCode::FAILURE
        }
    }
}
