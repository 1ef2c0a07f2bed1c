//! Lays candidates of many tables. Each line of standard input is a case: a name, a scope, a number and the bytes of a table, in decimal.
//! Each is answered by its name and then the lines of what the candidate lays.

#![tactic(auto)]

use anyhow::anyhow;
use lines::{laid_text, number_said};

/// Answers one line.
// `cases` reads its lines alike. A crate for both would be a library that allocates.
fn answer(rt: &HostRuntime, line: &str) -> anyhow::Result<()> {
    let mut words = line.split_whitespace();
    let (Some(name), Some(scope), Some(number)) = (words.next(), words.next(), words.next()) else {
        return Err(anyhow!("a case has a name, a scope and a number"));
    };
    let scope = scope.parse::<u8>()?;
    let mut table = Vec::new(rt.alloc());
    for word in words {
        table.push(word.parse::<u8>()?)?;
    }
    println!(rt; "{name}")?;
    let text = laid_text(table.as_slice(), scope, number_said(number.as_bytes()));
    rt.write_all(text.as_bytes())?;
    Ok(())
}

fn run(rt: &HostRuntime) -> anyhow::Result<()> {
    for line in rt.lines(rt.alloc()) {
        answer(rt, line?.as_str())?;
    }
    Ok(())
}

fn main(rt: HostRuntime) -> anyhow::Result<()> {
    run(&rt)
}
