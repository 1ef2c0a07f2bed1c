//! Reads a schema table from standard input and prints its card: `root TYPE COUNT LENGTH` for each root and `total N`, or
//! `no QUESTION ITEM`. The scope is its argument, 2 where there is none.

#![tactic(auto)]

use anyhow::anyhow;
use lines::{card_of, scope_said};
use std::env;
use std::io::Read;

/// The scope that the arguments say.
fn scope_of(rt: &HostRuntime) -> anyhow::Result<u8> {
    let mut arguments = env::args(rt)?.skip(1);
    let Some(first) = arguments.next() else {
        return Ok(2);
    };
    if arguments.next().is_some() {
        return Err(anyhow!("usage: card [SCOPE] < TABLE"));
    }
    Ok(scope_said(first.as_bytes()))
}

// `laid` reads its input alike; see there.
fn run(rt: &HostRuntime) -> anyhow::Result<()> {
    let scope = scope_of(rt)?;
    let mut table = Vec::new(rt.alloc());
    rt.stdin().read_to_end(&mut table)?;
    rt.print(card_of(rt.alloc(), table.as_slice(), scope)?)?;
    Ok(())
}

fn main(rt: HostRuntime) -> anyhow::Result<()> {
    run(&rt)
}
