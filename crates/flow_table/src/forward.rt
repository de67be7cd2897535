// The call flow: the checks, the blocks, their keys, and the table. Assumes nothing.
ghost use Rattle.std.specs.Prelude.{◌≡◌, ◌≤◌, length, IfOk};
ghost use Rattle.base.specs.Sizes.{max_instructions};
ghost use Rattle.base.specs.Refusals.{answer_of, output_after};
ghost use Rattle.sheet.specs.Code.{code_in};
ghost use Rattle.sheet.specs.Layout.{code_of};
ghost use Rattle.stackless_control_flow_graph.specs.Blocks.{blocks_of, flow_reply};
ghost use Rattle.stackless_control_flow_graph.specs.FlowMeaning.{FlowMeaning};

use crate::rows::write_rows;
use base::numbering::Numbering;
use base::{ROW, Refusal, SLOTS};
use sheet::accepted::ResolvedSheet;
use sheet_checks::check::read;
use stackless_control_flow_graph::blocks::BlockArrays;
use stackless_control_flow_graph::keys::find_keys;

// The flow table of an accepted sheet: how many blocks, and their rows where there is room for all.
pub fn table_of(sheet: ResolvedSheet<'_>, table: &mut [u16]) -> usize
    ensures result { result ≡ blocks_of (code_in sheet.entry) }
    ensures few { result ≤ max_instructions }
    ensures written { table.new ≡ output_after (flow_reply sheet.entry.bytes.now (length table.old)) table.old }
{
    let mut arrays = BlockArrays::new();
    let mut keys = Numbering::new();
    let blocks = find_keys(sheet, &mut arrays, &mut keys);
    let count = blocks.count();
    if ROW * count <= table.len() {
        write_rows(blocks, table);
    }
    count
}

// The call flow: the number of blocks, and six numbers for each at the front of the table. What they mean is its last clause.
#[tactic(auto, unfolding(stackless_control_flow_graph::specs::Blocks::flow_reply))]
pub fn flow(bytes: &[u8], table: &mut [u16]) -> Result<u32, Refusal>
    ensures result { result ≡ answer_of (flow_reply bytes.now (length table.old)) }
    ensures written { table.new ≡ output_after (flow_reply bytes.now (length table.old)) table.old }
    ensures meaning { IfOk result (λ blocks. FlowMeaning (code_of bytes.now) blocks table.new) }
{
    let mut targets = [0u16; SLOTS];
    let sheet = read(bytes, &mut targets)?;
    let count = table_of(sheet, table);
    if table.len() < ROW * count {
        return Err(Refusal::OutputShort);
    }
    Ok(count as u32)
}
