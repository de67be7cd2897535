// A test of a record's bytes, and the first instruction of a sheet at which one fails. Assumes nothing.
ghost use Rattle.std.specs.Prelude.{◌≡◌, Bool, ℕ, ◌+◌, ◌<◌, ◌≤◌, length, IfSome};
ghost use Rattle.base.specs.Sizes.{record_bytes, block_bytes, block_records, max_instructions};
ghost use Rattle.base.specs.Lists.{first_bad};
ghost use Rattle.stackless_bytecode.specs.declared.Bytecode.{Bytecode};
ghost use Rattle.stackless_bytecode.specs.Kinds.{at};
ghost use Rattle.sheet.specs.Layout.{decode, code_of};
ghost use Rattle.sheet.specs.Shaped.{Lists};
ghost use Rattle.sheet.specs.InBlock.{record_in};
ghost use Rattle.sheet.specs.ByBlocks.{Finds};

use crate::shaped::ShapedSheet;
use base::{BLOCK_BYTES, BLOCK_RECORDS, RECORD_BYTES, RECORDS_FROM};

// A test of the instruction that a record's bytes are; what it doesn't need it need not decode.
pub trait RecordTest {
    ghost test: { Self → Bytecode → Bool };

    fn holds(&self, bytes: &[u8]) -> bool
        requires size { length bytes.now ≡ record_bytes }
        requires lists { Lists (decode bytes.now) }
        ensures { result ≡ test self.now (decode bytes.now) };
}

// The first of m records of one block at which the test fails; the first of them has offset `from`.
fn first_in<T: RecordTest>(test: &T, p: &[u8], from: usize, m: usize) -> Option<usize>
    requires block { length p.now ≡ block_bytes }
    requires from { from ≤ max_instructions }
    requires few { m ≤ block_records }
    requires lists { (k : ℕ) → from ≤ k → k < from + m → Lists (decode (record_in p.now from k)) }
    ensures { Finds from (from + m) (λ k. T.test test.now (decode (record_in p.now from k))) result }
{
    for k in from..from + m {
        let at = RECORDS_FROM + RECORD_BYTES * (k - from);
        if !test.holds(&p[at..at + RECORD_BYTES]) {
            return Some(k);
        }
    }
    None
}

// The first instruction of a sheet at which the test fails. It goes block by block, so that no offset is divided by the records of a block.
pub fn first_failing<T: RecordTest>(test: &T, sheet: ShapedSheet<'_>) -> Option<usize>
    ensures first { result ≡ first_bad sheet.entry.count 0 (λ k. T.test test.now (at (code_of sheet.entry.bytes.now) k)) }
    ensures within { IfSome result (λ k. k < sheet.entry.count) }
{
    for b in 0..sheet.count.div_ceil(BLOCK_RECORDS) {
        let at = BLOCK_BYTES * (1 + b);
        let from = BLOCK_RECORDS * b;
        let m = (sheet.count - from).min(BLOCK_RECORDS);
        if let Some(k) = first_in(test, &sheet.bytes[at..at + BLOCK_BYTES], from, m) {
            return Some(k);
        }
    }
    None
}
