// Replays what the Rust answered to datagrams and packets (oracle/README.md) and compares every
// field and every byte with the codec's answers; then the cases that the lists lack. One line for
// each.

#![tactic(auto)]

use report::tally::Tally;
use std::io::Result;
use std::rt::Files;

mod decode_list;
mod edges;
mod encode_list;
mod records;
mod walks;

// Reads a list, replays it and prints its line.
fn print_list<R: FnOnce(&[u8]) -> Tally>(
    rt: &(impl Print + Eprint + Files + AllocGlobal),
    name: &str,
    replay: R,
) -> Result<()>
    requires { R.IsAlwaysCallable replay }
{
    replay(&list::read(rt, name)).print(rt, name.as_bytes())
}

fn main(rt: HostRuntime) -> Result<()> {
    print_list(&rt, "decode.bin", decode_list::replay)?;
    print_list(&rt, "encode.bin", encode_list::replay)?;
    edges::all().print(&rt, b"edges")?;
    walks::all().print(&rt, b"walks")
}
