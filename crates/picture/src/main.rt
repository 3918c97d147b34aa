#![tactic(auto)]

mod drawing;
mod gathering;
mod slots;

use crate::drawing::put_tree;
use crate::gathering::{Tree, run_on};
use crate::slots::put_slots;
use compact_map::shape::CompactMap;
use label_stores::plain::PlainStore;
use shelves::record::RecordShelf;
use std::alloc::{AllocError, Global};
use std::io::{Read, Write};
use std::{env, fs};

// Runs a list on a dictionary over a compact map in these bytes, a plain store of 16,384 bytes and 1,024 labels, and
// amounts on 1,024 places.
fn run_list(heap: Global, text: &[u8], lent: &mut [u8]) -> Result<Tree, AllocError> {
    let mut bytes = [0u8; 16_384];
    let mut starts = [0u32; 1_024];
    let mut amounts = [None; 1_024];
    let map = CompactMap::new(lent);
    let store = PlainStore::new(&mut bytes, &mut starts);
    let shelf = RecordShelf::new(&mut amounts);
    run_on(heap, map, store, shelf, text)
}

// Runs one list and draws what it leaves.
fn picture(heap: Global, text: &[u8]) -> Result<String, AllocError> {
    let mut lent = [0u8; 14_336];
    let tree = run_list(heap, text, &mut lent)?;
    let mut out = String::new(heap);
    put_tree(&mut out, &tree)?;
    put_slots(&mut out, &tree, &lent)?;
    Ok(out)
}

// Draws the list on the standard input or, where files are named, the list in each. The program in crates/bench runs
// lists in the same few lines, and says there why they are not shared.
fn draw_lists(rt: &HostRuntime) -> anyhow::Result<()> {
    let heap = rt.alloc();
    let draw = |text: &[u8]| -> anyhow::Result<()> {
        let out = picture(heap, text)?;
        rt.stdout().write_all(out.as_bytes())?;
        Ok(())
    };
    let mut names = env::args(rt)?.skip(1).peekable();
    if names.peek().is_none() {
        let mut text = Vec::new(heap);
        rt.stdin().read_to_end(&mut text)?;
        return draw(&text);
    }
    for name in names {
        draw(&fs::read(rt, name.as_str())?)?;
    }
    Ok(())
}

fn main(rt: HostRuntime) -> anyhow::Result<()> {
    draw_lists(&rt)
}
