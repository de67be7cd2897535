// replay: asks every call again what the original Rust was asked, and compares with the answers that were stored. FORMAT.txt has the file's layout.
#![tactic(auto)]

ghost use Rattle.std.specs.Prelude.{◌≡◌, length};

mod calls; // calls.rt: each call beside a stored answer

use crate::calls::{GRAPH_BYTES, ask};
use agreement::StoredCase;
use std::io;
use stored_cases::packed::{FILL, ROOM, unpack};
use stored_cases::stored::{HEAD_BYTES, ROW_BYTES, Row, cases_in, row_of};
use stored_cases::tally::{Asked, Tally};
use streams::read_input;

// The longest file.
const FILE_BYTES: usize = 2097152;

// Room for the file. The promise gives only the length: where the array is made in `main`, the check counts its zeros, and runs out of stack.
fn file_room() -> [u8; FILE_BYTES]
    ensures { length result ≡ FILE_BYTES }
{
    [0u8; FILE_BYTES]
}

// One case: the call is made, and its answer compared. None where the case is damaged.
fn replayed(file: &[u8], row: Row) -> Option<Asked> {
    let mut input = [0u8; ROOM];
    let mut second = [0u8; GRAPH_BYTES];
    let mut want = [0u8; ROOM];
    let i = unpack(row.input.part(file)?, &mut input)?;
    let s = unpack(row.second.part(file)?, &mut second)?;
    let w = unpack(row.written.part(file)?, &mut want)?;
    want[w..].fill(FILL);
    let op = row.op.ok()?;
    let stored = StoredCase {
        lent: row.lent,
        result: row.result,
        want: &want,
    };
    let same = ask(op, &input[..i], &second[..s], stored)?;
    Some(Asked {
        op,
        wrong: row.wrong,
        same,
    })
}

// Every case of a file, counted, and a line for each that is not as it should be.
fn replay(rt: &impl Print, file: &[u8], tally: &mut Tally) -> io::Result<()> {
    let Some(n) = cases_in(file) else {
        return tally.damaged_file(rt);
    };
    for (k, row) in file[HEAD_BYTES..]
        .chunks_exact(ROW_BYTES)
        .take(n)
        .enumerate()
    {
        tally.count(rt, k, replayed(file, row_of(row)))?;
    }
    Ok(())
}

fn main(rt: HostRuntime) -> io::Result<()> {
    let mut file = file_room();
    let mut tally = Tally::new();
    let n = read_input(&mut rt.stdin(), &mut file)?;
    replay(&rt, &file[..n], &mut tally)?;
    tally.print(&rt)
}
