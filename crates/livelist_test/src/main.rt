// Tests livelist's text: standard input has sheets one after the other, each behind its length in four bytes, and what livelist prints for each goes to standard output.
// The input and what must come out are made by rust/harness/src/bin/cases.rs: worked sheets, edges, and one sheet for each refusal.
#![tactic(auto)]

use base::READ_BYTES;
use live_text::livelist::{TEXT_BYTES, put_livelist};
use std::io;
use streams::read_input;

// The most sheets of a run.
const MAX_SHEETS: usize = 64;

// Prints what livelist prints for a sheet.
fn show(rt: &impl Print, sheet: &[u8]) -> io::Result<()> {
    let mut text = [0u8; TEXT_BYTES];
    let m = put_livelist(sheet, &mut text);
    rt.write_all(&text[..m])
}

// The next sheet, or what there is of it and of the room; false where the input has ended. Its length is in the first two of the four bytes: no sheet needs the others.
fn next(rt: &HostRuntime) -> io::Result<bool> {
    let mut head = [0u8; 4];
    if read_input(&mut rt.stdin(), &mut head)? < 4 {
        return Ok(false);
    }
    let mut sheet = [0u8; READ_BYTES];
    let long = READ_BYTES.min(usize::from(u16::from_le_bytes([head[0], head[1]])));
    let n = read_input(&mut rt.stdin(), &mut sheet[..long])?;
    show(rt, &sheet[..n])?;
    Ok(true)
}

fn main(rt: HostRuntime) -> io::Result<()> {
    for _ in 0..MAX_SHEETS {
        if !next(&rt)? {
            break;
        }
    }
    Ok(())
}
