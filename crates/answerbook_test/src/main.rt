// The pages of nine sheets of two blocks each, M1 to M6, one with an unknown kind, M2 with a Label that nobody names and one with a flagged Stop, one behind the other on standard input:
// the output is compared with the pages in sheets/.
#![tactic(auto)]

use base::BLOCK_BYTES;
use page::page::{PAGE_BYTES, put_page};
use std::io;
use streams::read_input;

const SHEETS: usize = 9;

// Two blocks.
const SHEET: usize = 2 * BLOCK_BYTES;

fn next_page(rt: &HostRuntime) -> io::Result<()> {
    let mut sheet = [0u8; SHEET];
    let mut text = [0u8; PAGE_BYTES];
    let n = read_input(&mut rt.stdin(), &mut sheet)?;
    let m = put_page(&sheet[..n], &mut text);
    rt.write_all(&text[..m])
}

fn main(rt: HostRuntime) -> io::Result<()> {
    for _ in 0..SHEETS {
        next_page(&rt)?;
    }
    Ok(())
}
