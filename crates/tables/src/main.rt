// Prints key tables, and what decoding finds: each line of standard input names a code, and users of it or a word.
#![tactic(auto)]

mod answer;
mod decode;
mod either;
mod made;
mod naming;
mod numbers;
mod report;
mod request;
mod stop;
mod word;

use answer::answer_line;
use std::io;
use worked::worked_values_hold;

fn main(rt: HostRuntime) -> io::Result<()> {
    let worked = worked_values_hold();
    println!(rt; "{worked} worked values of the documentation hold by proof")?;
    for line in rt.lines(rt.alloc()) {
        let line = line?;
        let text = line.as_str();
        if !text.is_empty() {
            println!(rt; "> {text}")?;
            answer_line(&rt, text)?;
        }
    }
    Ok(())
}
