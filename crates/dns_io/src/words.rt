//! The words of a command line.

use dns_record::NoMemory;
use std::{env, io};

/// The words after the program's name; none where one of them can't be read, as where it isn't UTF-8.
pub fn words_of(rt: &HostRuntime) -> Result<Option<Vec<Vec<u8>>>, NoMemory> {
    let mut args = match env::args(rt) {
        Ok(args) => args,
        Err(error) => {
            return if error.kind() == io::ErrorKind::OutOfMemory {
                Err(NoMemory)
            } else {
                Ok(None)
            };
        }
    };
    args.next();
    let mut words = Vec::new(rt.alloc());
    for word in args {
        words.push(word.into_bytes())?;
    }
    Ok(Some(words))
}
