//! The words that the program was started with.

use bridge_tool::Status;
use std::env;
use std::io::ErrorKind;
use std::rt::Env;

/// The words after the program's name. Words that are no text are no command.
pub fn words_of<R: Env + AllocGlobal>(rt: &R) -> Result<Vec<String>, Status> {
    let args = match env::args(rt) {
        Ok(args) => args,
        Err(error) => {
            return Err(match error.kind() {
                ErrorKind::OutOfMemory => Status::NoMemory,
                _ => Status::BadWords,
            });
        }
    };
    let mut words = Vec::new(rt.alloc());
    for word in args.skip(1) {
        if words.push(word).is_err() {
            return Err(Status::NoMemory);
        }
    }
    Ok(words)
}
