// The rows of the flow table: six numbers for each block, by offset. Assumes nothing.
ghost use Rattle.std.specs.Prelude.{◌≡◌, [], ◌∷◌, ◌++◌, ℕ, ◌*◌, ◌≤◌, ◌<◌, cond, get_or, length, drop};
ghost use Rattle.base.specs.Lists.{gather};
ghost use Rattle.base.specs.Sizes.{row_numbers, max_instructions};
ghost use Rattle.stackless_bytecode.specs.Kinds.{at, is_exit};
ghost use Rattle.stackless_control_flow_graph.specs.Arrays.{offsets_of, next_keys, succs_in, Within, Reach, HasRecord, next_keys_in, row_from, row_in};
ghost use Rattle.stackless_control_flow_graph.specs.Blocks.{Start};
ghost use Rattle.stackless_control_flow_graph.specs.Blocks.{blocks_of, upper_of, keyed, row, flow_table};
ghost use Rattle.sheet.specs.Code.{code_in};

use base::ROW;
use sheet::reader;
use stackless_control_flow_graph::blocks::block_at;
use stackless_control_flow_graph::keys::{EXIT_KEY, KeyedBlocks, keys_in};
use stackless_control_flow_graph::{Block, Successors};

// The successor keys of the block from `lower` on: 1 at an exit, else those of its successors.
fn successor_keys(blocks: KeyedBlocks<'_>, lower: u16) -> Successors
    requires { Start (code_in blocks.by_offset.sheet) lower }
    ensures { offsets_of result ≡ cond (is_exit (at (code_in blocks.entry.by_offset.sheet) (upper_of (code_in blocks.entry.by_offset.sheet) lower))) (1 ∷ []) (next_keys (code_in blocks.entry.by_offset.sheet) lower) }
{
    let upper = usize::from(blocks.by_offset.upper(lower));
    if blocks.by_offset.sheet.instruction(upper).is_exit() {
        return Successors::One(EXIT_KEY);
    }
    blocks.next_keys(lower)
}

// The row of the block from `lower` on.
fn write_row(blocks: KeyedBlocks<'_>, lower: u16, out: &mut [u16])
    requires start { Start (code_in blocks.by_offset.sheet) lower }
    requires six { length out.old ≡ row_numbers }
    ensures { out.new ≡ row (code_in blocks.entry.by_offset.sheet) (keyed (code_in blocks.entry.by_offset.sheet)) lower }
{
    let [first, second] = successor_keys(blocks, lower).pair(0);
    out[0] = lower;
    out[1] = blocks.by_offset.upper(lower);
    out[2] = blocks.key(lower);
    out[3] = first;
    out[4] = second;
    out[5] = 0;
}

// The rows of all blocks to the front of the table. The rows are lent by index: of what is written through chunks_exact_mut a proof knows the length alone.
pub fn write_rows(blocks: KeyedBlocks<'_>, table: &mut [u16])
    requires { row_numbers * blocks_of (code_in blocks.by_offset.sheet) ≤ length table.old }
    ensures { table.new ≡ flow_table (code_in blocks.entry.by_offset.sheet) ++ drop (row_numbers * blocks_of (code_in blocks.entry.by_offset.sheet)) table.old }
{
    for (b, &lower) in blocks.by_offset.lowers().iter().enumerate() {
        let at = ROW * b;
        write_row(blocks, lower, &mut table[at..at + ROW]);
    }
}

// The successor keys of the block in arrays that ends at `upper`: 1 at an exit, else those of its successors.
fn successor_keys_in(sheet: &[u8], goes: &[Successors], upper: usize, keys: &[u16]) -> Successors
    requires recorded { HasRecord sheet.now upper }
    requires inside { upper < length goes.now }
    requires within { Within (length keys.now) (succs_in goes.now upper) }
    ensures { offsets_of result ≡ next_keys_in sheet.now goes.now keys.now upper }
{
    if reader::instruction_at(sheet, upper).is_exit() {
        return Successors::One(EXIT_KEY);
    }
    keys_in(keys, goes[upper])
}

// The row of a block in arrays.
fn write_row_in(sheet: &[u8], goes: &[Successors], block: Block, keys: &[u16], out: &mut [u16])
    requires recorded { HasRecord sheet.now block.upper }
    requires lower { block.lower < length keys.now }
    requires upper { block.upper < length goes.now }
    requires within { Within (length keys.now) (succs_in goes.now block.upper) }
    requires few { length keys.now ≤ max_instructions }
    requires six { length out.old ≡ row_numbers }
    ensures { out.new ≡ row_from sheet.now goes.now keys.now block.lower block.upper }
{
    let next = successor_keys_in(sheet, goes, block.upper, keys).pair(0);
    out[0] = block.lower as u16;
    out[1] = block.upper as u16;
    out[2] = keys[block.lower];
    out[3] = next[0];
    out[4] = next[1];
    out[5] = 0;
}

// The rows of blocks in arrays, by the records of any sheet, to the front of the table: `lowers` has the lower of each, `uppers` the upper of each offset, `keys` the key of each lower.
pub fn rows_of(
    sheet: &[u8],
    goes: &[Successors],
    lowers: &[u16],
    uppers: &[u16],
    keys: &[u16],
    table: &mut [u16],
)
    requires blocks { Reach goes.now lowers.now uppers.now (length keys.now) }
    requires recorded { (b : ℕ) → b < length lowers.now → HasRecord sheet.now (get_or uppers.now (get_or lowers.now b 0) 0) }
    requires few { length keys.now ≤ max_instructions }
    requires room { row_numbers * length lowers.now ≤ length table.old }
    ensures { table.new ≡ gather (row_in sheet.now goes.now uppers.now keys.now) lowers.now ++ drop (row_numbers * length lowers.now) table.old }
{
    for b in 0..lowers.len() {
        let block = block_at(lowers, uppers, b);
        let at = ROW * b;
        write_row_in(sheet, goes, block, keys, &mut table[at..at + ROW]);
    }
}
