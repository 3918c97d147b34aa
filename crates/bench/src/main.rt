#![tactic(auto)]

ghost use Rattle.std.specs.Prelude.{◌≡◌, ◌^◌, ◌<◌, length, IfOk};
ghost use Rattle.session.specs.Output.{Printed};
ghost use Rattle.bench.specs.Bench.{bench_text};

use compact_map::shape::CompactMap;
use label_stores::plain::PlainStore;
use parts::store::LabelStore;
use session::serve::print_list;
use shelves::record::RecordShelf;
use std::alloc::{AllocError, Global};
use std::io::{Read, Write};
use std::{env, fs};

// Runs a list on the program's dictionary: a compact map with up to 1,024 slots, a plain store of 16,384 bytes and 1,024
// labels, and amounts on 1,024 places. What is printed goes into `out` as far as it fits; answers how many bytes it has.
// The library in crates/door makes such parts in memory that C lends: a crate for these few lines alone is no plainer.
fn print_bench(text: &[u8], out: &mut [u8]) -> usize
    ensures { Printed (bench_text text.now) out.old out.new result }
{
    let mut slots = [0u8; 14_336];
    let mut bytes = [0u8; 16_384];
    let mut starts = [0u32; 1_024];
    let mut amounts = [None; 1_024];
    let map = CompactMap::new(&mut slots);
    let store = PlainStore::new(&mut bytes, &mut starts);
    let shelf = RecordShelf::new(&mut amounts);
    print_list(map, store, shelf, text, out)
}

// What the program prints for a list: run once to learn how long it is, and once to have it.
fn transcript(heap: Global, text: &[u8]) -> Result<Vec<u8>, AllocError>
    ensures { IfOk result (λ v. length (bench_text text.now) < 2 ^ 64 → v.items ≡ bench_text text.now) }
{
    let length = print_bench(text, &mut []);
    let mut out = vec![in heap; 0u8; length]?;
    print_bench(text, &mut out);
    Ok(out)
}

// Prints what the list on the standard input asks for or, where files are named, the list in each. The program in
// crates/picture draws lists in the same few lines: a function of both would have no contract, since none says what a
// file or the standard input holds.
fn run_lists(rt: &HostRuntime) -> anyhow::Result<()> {
    let heap = rt.alloc();
    let run = |text: &[u8]| -> anyhow::Result<()> {
        let out = transcript(heap, text)?;
        rt.stdout().write_all(&out)?;
        Ok(())
    };
    let mut names = env::args(rt)?.skip(1).peekable();
    if names.peek().is_none() {
        let mut text = Vec::new(heap);
        rt.stdin().read_to_end(&mut text)?;
        return run(&text);
    }
    for name in names {
        run(&fs::read(rt, name.as_str())?)?;
    }
    Ok(())
}

fn main(rt: HostRuntime) -> anyhow::Result<()> {
    run_lists(&rt)
}
