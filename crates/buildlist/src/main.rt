// Build lists: reads an order file from standard input and writes one line for each answer (docs/ORDER-FILE.md).
// The work is done by proved functions: a line is read by the crate `records`, graphs are laid by `draft`, answers are
// worded by `orders`. `session` has what follows what, `kinds` what differs between the two kinds of graphs, and
// `answers` the way out.
#![tactic(auto)]

mod answers;
mod kinds;
mod session;

use index::limits::{EDGE_LIMIT, NODE_LIMIT};
use session::Session;
use std::io::Read;

// Two words a node and eight an edge, for as many as a graph may have.
const TABLE_WORDS: usize = 2 * NODE_LIMIT as usize + 8 * EDGE_LIMIT as usize;

fn run(rt: &HostRuntime) -> anyhow::Result<()> {
    let heap = rt.alloc();
    let mut text = Vec::new(heap);
    rt.stdin().read_to_end(&mut text)?;
    let mut table = vec![in heap; 0u32; TABLE_WORDS]?;
    Session::new(rt, text.as_slice()).run(table.as_mut_slice())
}

fn main(rt: HostRuntime) -> anyhow::Result<()> {
    run(&rt)
}
