// A sheet out of its heading and its records: each later block handed on as the part of the sheet that it is. Assumes nothing.
ghost use Rattle.std.specs.Prelude.{◌≡◌, List, ◌++◌, ◌+◌, ◌-◌, ◌*◌, ◌<◌, ◌≤◌, length, drop, replicate};
ghost use Rattle.base.specs.Sizes.{block_bytes, max_blocks, max_instructions, max_number};
ghost use Rattle.base.specs.Bytes.{bytes_of};
ghost use Rattle.stackless_bytecode.specs.declared.Bytecode.{Bytecode};
ghost use Rattle.sheet.specs.Layout.{heading_rest, block_of, record_blocks, sheet_of};
ghost use Rattle.sheet_writer.specs.Written.{body_bytes, gap_bytes, Blocks, Holds, SheetWritten};

use crate::writer::put_u16;
use base::{BLOCK_BYTES, MAX_BLOCKS, RECORDS_FROM};
use sheet_form::blocks::{record_blocks, total};

// The bytes of a block's records, and the zeros before them.
pub const BODY_BYTES: usize = BLOCK_BYTES - RECORDS_FROM;

// Those of the longest sheet.
pub const FLAT_BYTES: usize = BODY_BYTES * (MAX_BLOCKS - 1);

// A block whose bytes from 4 on are in place: its number and its check.
#[tactic(auto, using(crate::specs::SheetLaws::sealed))]
fn seal(b: u16, out: &mut [u8])
    requires { length out.old ≡ block_bytes }
    ensures { out.new ≡ block_of b (drop 4 out.old) }
{
    put_u16(&mut out[0..2], b);
    let t = total(&out[0..2]) + total(&out[4..BLOCK_BYTES]);
    put_u16(&mut out[2..4], (t % 65536) as u16);
}

// The heading of the sheet s, with another count.
fn heading(s: &[u8], n: usize) -> [u8; BLOCK_BYTES]
    requires heading { block_bytes ≤ length s.now }
    requires few { n ≤ max_number }
    ensures { result ≡ block_of 0 (bytes_of 2 n ++ heading_rest s.now) }
{
    let mut block = [0; BLOCK_BYTES];
    block[6..BLOCK_BYTES].copy_from_slice(&s[6..BLOCK_BYTES]);
    put_u16(&mut block[4..6], n as u16);
    seal(0, &mut block);
    block
}

// A later block of these records.
fn put_later(p: &[u8], b: u16, out: &mut [u8])
    requires records { length p.now ≡ body_bytes }
    requires block { length out.old ≡ block_bytes }
    ensures { out.new ≡ block_of b (replicate gap_bytes 0 ++ p.now) }
{
    out[4..RECORDS_FROM].fill(0);
    out[RECORDS_FROM..BLOCK_BYTES].copy_from_slice(p);
    seal(b, out);
}

// All later blocks, of which there are m, of the records in `flat`. They are lent by index: of what is written through chunks_exact_mut a proof knows the length alone.
fn put_all_later(flat: &[u8], m: usize, out: &mut [u8])
    requires few { m < max_blocks }
    requires records { body_bytes * m ≤ length flat.now }
    requires room { block_bytes * m ≤ length out.old }
    ensures { Blocks flat.now out.old m out.new }
{
    for b in 0..m {
        let from = BODY_BYTES * b;
        let at = BLOCK_BYTES * b;
        put_later(
            &flat[from..from + BODY_BYTES],
            (1 + b) as u16,
            &mut out[at..at + BLOCK_BYTES],
        );
    }
}

// The sheet with the heading of s and the n instructions whose records stand in `flat`; its length.
#[tactic(auto, using(crate::specs::SheetLaws::few_blocks))]
pub fn write_sheet(s: &[u8], n: usize, flat: &[u8], out: &mut [u8]) -> u32
    requires heading { block_bytes ≤ length s.now }
    requires few { n ≤ max_instructions }
    requires records { body_bytes * record_blocks n ≤ length flat.now }
    requires room { block_bytes * (1 + record_blocks n) ≤ length out.old }
    ensures { (code : List Bytecode) → n ≡ length code → Holds flat.now code → SheetWritten (sheet_of (heading_rest s.now) code) out.old result out.new }
{
    let m = record_blocks(n);
    out[0..BLOCK_BYTES].copy_from_slice(&heading(s, n));
    put_all_later(flat, m, &mut out[BLOCK_BYTES..]);
    (BLOCK_BYTES * (1 + m)) as u32
}
