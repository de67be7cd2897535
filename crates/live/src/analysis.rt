// The call live: the rules, the graph and the run of a sheet, and the sets as bytes. Assumes nothing.
ghost use Rattle.std.specs.Prelude.{◌≡◌, ◌*◌, ◌≤◌, length, OnOk, IfOk};
ghost use Rattle.base.specs.Sizes.{pair_bytes};
ghost use Rattle.base.specs.Refusals.{answer_of, output_after};
ghost use Rattle.sheet.specs.Code.{code_in};
ghost use Rattle.livevar_analysis.specs.Analysis.{live_reply};
ghost use Rattle.livevar_analysis.specs.LiveCall.{LeastLive, TakenUntilEmpty};
ghost use Rattle.livevar_analysis.specs.Prepared.{LiveWritten};

use backward_graph::graph::graph_of;
use base::{MAX_INSTRUCTIONS, PAIR_BYTES, Refusal, SLOTS};
use dataflow_domains::LiveVarState;
use livevar_analysis::rules::{Rule, decode_rules};
use livevar_analysis::tables::Tables;
use livevar_engine::engine::{NODES, solve};
use livevar_output::output::write_info;
use sheet::accepted::ResolvedSheet;
use sheet_checks::check::read;
use stackless_control_flow_graph::graph::Graph;

// The live sets of an accepted sheet, as bytes at the front of `out`; the result is how many blocks were taken.
pub fn analyze(sheet: ResolvedSheet<'_>, out: &mut [u8]) -> u32
    requires { pair_bytes * length (code_in sheet) ≤ length out.old }
    ensures { LiveWritten sheet.entry.bytes.now result out.old out.new }
{
    let mut rules = [Rule::none(); MAX_INSTRUCTIONS];
    let mut sets = [LiveVarState::empty(); NODES];
    decode_rules(sheet.accepted(), &mut rules);
    let mut graph = Graph::new();
    graph_of(sheet, &mut graph);
    let tables = Tables {
        rules: &rules,
        lower_of_key: &graph.lower_of_key,
        upper_of_key: &graph.upper_of_key,
        first_edge: &graph.first_edge,
        edges: &graph.edges,
    };
    let taken = solve(&tables, graph.count, &mut sets);
    write_info(&rules, &graph.key_of_offset[..sheet.count], &sets, out);
    taken
}

// The live call: the sets before and after each instruction as bytes at the front of `sets`, and how many blocks were taken. Term 3 is its last two clauses.
#[tactic(auto, unfolding(livevar_analysis::specs::Analysis::live_reply))]
pub fn live(bytes: &[u8], sets: &mut [u8]) -> Result<u32, Refusal>
    ensures result { result ≡ answer_of (live_reply bytes.now (length sets.old)) }
    ensures written { sets.new ≡ output_after (live_reply bytes.now (length sets.old)) sets.old }
    ensures least { OnOk result (LeastLive bytes.now sets.new) }
    ensures counted { IfOk result (λ taken. TakenUntilEmpty bytes.now taken) }
{
    let mut targets = [0u16; SLOTS];
    let sheet = read(bytes, &mut targets)?;
    if sets.len() < PAIR_BYTES * sheet.count {
        return Err(Refusal::OutputShort);
    }
    Ok(analyze(sheet, sets))
}
