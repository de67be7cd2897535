// The graph of an accepted sheet's blocks by key, made from the blocks and their keys. Assumes nothing.
ghost use Rattle.std.specs.Prelude.{◌≡◌, ℕ, ◌+◌, ◌≤◌, get_or, length};
ghost use Rattle.base.specs.Sizes.{max_instructions};
ghost use Rattle.sheet.specs.Code.{code_in};
ghost use Rattle.stackless_control_flow_graph.specs.Blocks.{keyed};
ghost use Rattle.stackless_control_flow_graph.specs.Graph.{Bounds, GraphTables};
ghost use Rattle.stackless_control_flow_graph.specs.Sorting.{max_slots};

use crate::backward::backward_edges;
use base::numbering::Numbering;
use sheet::accepted::ResolvedSheet;
use stackless_control_flow_graph::blocks::BlockArrays;
use stackless_control_flow_graph::graph::Graph;
use stackless_control_flow_graph::keys::{KeyedBlocks, find_keys, spread_keys};

// The lower and the upper of each block, by key.
fn write_bounds(blocks: KeyedBlocks<'_>, lower_of_key: &mut [u16], upper_of_key: &mut [u16])
    requires lowers { length (keyed (code_in blocks.by_offset.sheet)) ≤ length lower_of_key.old }
    requires uppers { length (keyed (code_in blocks.by_offset.sheet)) ≤ length upper_of_key.old }
    ensures { Bounds (code_in blocks.entry.by_offset.sheet) lower_of_key.new upper_of_key.new }
{
    for (i, &lower) in blocks.lowers_by_key().iter().enumerate() {
        lower_of_key[i] = lower;
        upper_of_key[i] = blocks.by_offset.upper(lower);
    }
}

// The graph of a sheet's blocks, into arrays with room for the largest code; how many blocks.
pub fn graph_into(
    sheet: ResolvedSheet<'_>,
    lower_of_key: &mut [u16],
    upper_of_key: &mut [u16],
    key_of_offset: &mut [u16],
    first_edge: &mut [u16],
    edges: &mut [u16],
) -> usize
    requires lowers { max_instructions ≤ length lower_of_key.old }
    requires uppers { max_instructions ≤ length upper_of_key.old }
    requires offsets { max_instructions ≤ length key_of_offset.old }
    requires starts { max_instructions + 5 ≤ length first_edge.old }
    requires blank { (k : ℕ) → get_or first_edge.old k 0 ≡ 0 }
    requires room { max_slots ≤ length edges.old }
    ensures { GraphTables (code_in sheet.entry) result lower_of_key.new upper_of_key.new key_of_offset.new first_edge.new edges.new }
{
    let mut arrays = BlockArrays::new();
    let mut keys = Numbering::new();
    let blocks = find_keys(sheet, &mut arrays, &mut keys);
    let count = blocks.count();
    write_bounds(blocks, lower_of_key, upper_of_key);
    spread_keys(blocks.keys, sheet.count, key_of_offset);
    backward_edges(blocks, first_edge, edges);
    count
}

// The graph of a sheet's blocks, into its arrays.
pub fn graph_of(sheet: ResolvedSheet<'_>, graph: &mut Graph)
    requires { (k : ℕ) → get_or graph.old.first_edge k 0 ≡ 0 }
    ensures { GraphTables (code_in sheet.entry) graph.new.count graph.new.lower_of_key graph.new.upper_of_key graph.new.key_of_offset graph.new.first_edge graph.new.edges }
{
    graph.count = graph_into(
        sheet,
        &mut graph.lower_of_key,
        &mut graph.upper_of_key,
        &mut graph.key_of_offset,
        &mut graph.first_edge,
        &mut graph.edges,
    );
}
