// The answer to a line.
use crate::decode::decode;
use crate::report::report;
use crate::request::{CodeName, Request, read_request};
use crate::stop::Stop;
use code::Concatenation;
use std::io;

fn answer(rt: &HostRuntime, line: &str) -> Result<(), Stop> {
    match read_request(rt.alloc(), line)? {
        Request::Tables { code, users } => match code {
            CodeName::Alone(code) => report(rt, &code.make()?, &users),
            CodeName::Concatenated { outer, inner } => {
                let code = Concatenation::new(outer.make()?, inner.make()?)?;
                report(rt, &code, &users)
            }
        },
        Request::Decoding { code, degree, word } => decode(rt, code, degree, &word),
    }
}

// Prints what a line asks for, or why it is refused.
pub(crate) fn answer_line(rt: &HostRuntime, line: &str) -> io::Result<()> {
    match answer(rt, line) {
        Ok(()) => Ok(()),
        Err(Stop::Failed(error)) => Err(error),
        Err(Stop::Memory(error)) => Err(error.into()),
        Err(refused) => println!(rt; "{refused}"),
    }
}
