//! The program: `bridge_tool::run` over the words, standard input and standard output.
//!
//! Handed the declaration of `fn pick<'a, 'b: 'a>(&'a self, y: &'b O) -> &'a O` it prints its page and ends with 0; handed the word
//! `chek` it reads nothing, prints `bridge_tool: status 6` to standard error and ends with 6.
#![tactic(auto)]

mod words;

use bridge_tool::{StdSink, StdSource, run};
use std::process::ExitCode;
use words::words_of;

fn main(rt: HostRuntime) -> ExitCode {
    let status = match words_of(&rt) {
        Ok(words) => {
            let (mut source, mut sink) = (StdSource::new(rt.stdin()), StdSink::new(rt.stdout()));
            run(rt.alloc(), &words, &mut source, &mut sink)
        }
        Err(status) => status.code(),
    };
    if status >= 3 {
        let _ = eprintln!(rt; "bridge_tool: status {status}");
    }
    ExitCode::from(status)
}
