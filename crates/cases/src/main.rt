//! Runs the table check over many tables. Each line of standard input is a case: a name, a scope and the bytes of a table, in decimal.
//! Each is answered by its name and then the card of the table.

#![tactic(auto)]

use anyhow::anyhow;
use lines::card_of;

/// Answers one line.
// `lay_cases` reads its lines alike; see there.
fn answer(rt: &HostRuntime, line: &str) -> anyhow::Result<()> {
    let mut words = line.split_whitespace();
    let (Some(name), Some(scope)) = (words.next(), words.next()) else {
        return Err(anyhow!("a case has a name and a scope"));
    };
    let scope = scope.parse::<u8>()?;
    let mut table = Vec::new(rt.alloc());
    for word in words {
        table.push(word.parse::<u8>()?)?;
    }
    println!(rt; "{name}")?;
    rt.print(card_of(rt.alloc(), table.as_slice(), scope)?)?;
    Ok(())
}

fn run(rt: &HostRuntime) -> anyhow::Result<()> {
    for line in rt.lines(rt.alloc()) {
        answer(rt, line?.as_str())?;
    }
    Ok(())
}

fn main(rt: HostRuntime) -> anyhow::Result<()> {
    run(&rt)
}
