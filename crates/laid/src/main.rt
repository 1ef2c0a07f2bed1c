//! Reads a schema table from standard input and prints the events that a candidate lays: `TYPE AROUND PRECEDES` for each event, `none`
//! where there is no such candidate, or `no QUESTION ITEM`. The scope and the number of the candidate are its arguments.

#![tactic(auto)]

use anyhow::anyhow;
use lines::{laid_text, number_said, scope_said};
use std::env;
use std::io::Read;

/// The scope and the number that the arguments say.
fn said(rt: &HostRuntime) -> anyhow::Result<(u8, Option<u32>)> {
    let mut arguments = env::args(rt)?.skip(1);
    let (Some(scope), Some(number), None) = (arguments.next(), arguments.next(), arguments.next())
    else {
        return Err(anyhow!("usage: laid SCOPE NUMBER < TABLE"));
    };
    Ok((scope_said(scope.as_bytes()), number_said(number.as_bytes())))
}

// `card` reads its input alike. A crate for both would be a library that allocates.
fn run(rt: &HostRuntime) -> anyhow::Result<()> {
    let (scope, number) = said(rt)?;
    let mut table = Vec::new(rt.alloc());
    rt.stdin().read_to_end(&mut table)?;
    let text = laid_text(table.as_slice(), scope, number);
    rt.write_all(text.as_bytes())?;
    Ok(())
}

fn main(rt: HostRuntime) -> anyhow::Result<()> {
    run(&rt)
}
