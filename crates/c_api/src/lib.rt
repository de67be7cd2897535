// The calls that a marking service links, each with its answer in one number: each takes any slices, and returns number * 2^32 + value. c_api_c exports them to C. Assumes nothing.
#![tactic(auto)]

ghost use Rattle.std.specs.Prelude.{◌≡◌, eqb, length, take, IfOk, OnOk};
ghost use Rattle.base.specs.Refusals.{answer_of, output_after};
ghost use Rattle.sheet.specs.Layout.{code_of};
ghost use Rattle.stackless_control_flow_graph.specs.Blocks.{flow_reply};
ghost use Rattle.stackless_control_flow_graph.specs.FlowMeaning.{FlowMeaning};
ghost use Rattle.label.specs.LabelCall.{label_reply, LabelMeaning};
ghost use Rattle.livevar_analysis.specs.Analysis.{live_reply};
ghost use Rattle.livevar_analysis.specs.LiveCall.{LeastLive, TakenUntilEmpty};
ghost use Rattle.class_set.specs.ClassSet.{sets_reply, answers_reply};
ghost use Rattle.class_set.specs.ClassMeaning.{ClassMeaning};
ghost use Rattle.livevar_transform.specs.Rewrite.{rewrite_reply};
ghost use Rattle.livevar_transform.specs.RewriteAccepted.{AcceptedRewriting};
ghost use Rattle.eliminate_unused_vars.specs.Renumber.{renumber_reply};
ghost use Rattle.eliminate_unused_vars.specs.Renumbered.{Renumbered};
ghost use Rattle.borrow_analysis.specs.Graph.{graph_input, graph_of};
ghost use Rattle.borrow_analysis.specs.Borrows.{in_use_reply, conditional_reply, dying_reply};
ghost use Rattle.borrow_analysis.specs.Meaning.{InUse, Conditional, DyingList, Decides};
ghost use Rattle.listing.specs.Lines.{livelist_reply};
ghost use Rattle.pages.specs.Page.{page_reply};
ghost use Rattle.c_api.specs.Packed.{packed, check_reply};

use base::Refusal;
use borrow_analysis::graph::InputGraph;
use sheet_checks::check::check;

// An answer in one number.
fn pack(answer: Result<u32, Refusal>) -> u64
    ensures { result ≡ packed answer }
{
    match answer {
        Ok(value) => u64::from(value),
        Err(refusal) => (u64::from(refusal.number()) << 32) + u64::from(refusal.place()),
    }
}

// Checks 1 to 4, 18 and 5 to 8 of a sheet: 0 where they accept.
#[tactic(auto, unfolding(crate::specs::Packed::check_reply))]
pub fn sorzibelu_check(sheet: &[u8]) -> u64
    ensures result { result ≡ packed (answer_of (check_reply sheet.now)) }
{
    pack(check(sheet).map(|()| 0))
}

// How many blocks, and six numbers for each at the front of `table`.
pub fn sorzibelu_flow(sheet: &[u8], table: &mut [u16]) -> u64
    ensures result { result ≡ packed (answer_of (flow_reply sheet.now (length table.old))) }
    ensures written { table.new ≡ output_after (flow_reply sheet.now (length table.old)) table.old }
    ensures means { IfOk (answer_of (flow_reply sheet.now (length table.old))) (λ m. FlowMeaning (code_of sheet.now) m table.new) }
{
    pack(flow_table::forward::flow(sheet, table))
}

// What a label is in the code: 65,536 times the way, and the offset.
pub fn sorzibelu_label(sheet: &[u8], label: u32) -> u64
    ensures result { result ≡ packed (answer_of (label_reply sheet.now label)) }
    ensures means { IfOk (answer_of (label_reply sheet.now label)) (λ m. LabelMeaning (code_of sheet.now) label m) }
{
    pack(label::label::label(sheet, label))
}

// How many blocks were taken, and the sets before and after each instruction at the front of `sets`.
pub fn sorzibelu_live(sheet: &[u8], sets: &mut [u8]) -> u64
    ensures result { result ≡ packed (answer_of (live_reply sheet.now (length sets.old))) }
    ensures written { sets.new ≡ output_after (live_reply sheet.now (length sets.old)) sets.old }
    ensures least { OnOk (answer_of (live_reply sheet.now (length sets.old))) (LeastLive sheet.now sets.new) }
    ensures counted { IfOk (answer_of (live_reply sheet.now (length sets.old))) (λ m. TakenUntilEmpty sheet.now m) }
{
    pack(live::analysis::live(sheet, sets))
}

// How many sheets a class set has, the sets of each at the front of its own bytes of `sets`, and its number, place and count in `answers`.
pub fn sorzibelu_live_class(sheets: &[u8], sets: &mut [u8], answers: &mut [u32]) -> u64
    ensures result { result ≡ packed (answer_of (sets_reply sheets.now sets.old (length answers.old))) }
    ensures written { sets.new ≡ output_after (sets_reply sheets.now sets.old (length answers.old)) sets.old }
    ensures answered { answers.new ≡ output_after (answers_reply sheets.now (length sets.old) (length answers.old)) answers.old }
    ensures means { OnOk (answer_of (sets_reply sheets.now sets.old (length answers.old))) (ClassMeaning sheets.now sets.old answers.old sets.new answers.new) }
{
    pack(live_class::live_class::live_class(sheets, sets, answers))
}

// How many bytes the rewritten sheet has, and the sheet at the front of `out`.
pub fn sorzibelu_rewrite(sheet: &[u8], out: &mut [u8]) -> u64
    ensures result { result ≡ packed (answer_of (rewrite_reply sheet.now (length out.old))) }
    ensures written { out.new ≡ output_after (rewrite_reply sheet.now (length out.old)) out.old }
    ensures accepted { IfOk (answer_of (rewrite_reply sheet.now (length out.old))) (λ m. AcceptedRewriting sheet.now (take m out.new)) }
{
    pack(rewrite::rewrite::rewrite(sheet, out))
}

// How many bytes the renumbered sheet has, and the sheet at the front of `out`.
pub fn sorzibelu_renumber(sheet: &[u8], out: &mut [u8]) -> u64
    ensures result { result ≡ packed (answer_of (renumber_reply sheet.now (length out.old))) }
    ensures written { out.new ≡ output_after (renumber_reply sheet.now (length out.old)) out.old }
    ensures renumbered { IfOk (answer_of (renumber_reply sheet.now (length out.old))) (λ m. Renumbered sheet.now (take m out.new)) }
{
    pack(renumber::renumber::renumber(sheet, out))
}

// Whether a node is in use: 1 or 0.
pub fn sorzibelu_in_use(nodes: u32, live: u64, triples: &[u32], node: u32) -> u64
    ensures result { result ≡ packed (answer_of (in_use_reply (graph_input nodes live triples.now) node)) }
    ensures means { IfOk (answer_of (in_use_reply (graph_input nodes live triples.now) node)) (λ m. Decides (eqb m 1) (InUse (graph_of (graph_input nodes live triples.now)) node)) }
{
    let graph = InputGraph {
        nodes,
        live,
        triples,
    };
    pack(borrow_info::in_use(graph, node))
}

// Whether a node is conditional: 1 or 0.
pub fn sorzibelu_conditional(nodes: u32, live: u64, triples: &[u32], node: u32) -> u64
    ensures result { result ≡ packed (answer_of (conditional_reply (graph_input nodes live triples.now) node)) }
    ensures means { IfOk (answer_of (conditional_reply (graph_input nodes live triples.now) node)) (λ m. Decides (eqb m 1) (Conditional (graph_of (graph_input nodes live triples.now)) node)) }
{
    let graph = InputGraph {
        nodes,
        live,
        triples,
    };
    pack(borrow_info::conditional(graph, node))
}

// How many nodes die, and each as one byte of `out`.
pub fn sorzibelu_dying(
    nodes: u32,
    live: u64,
    triples: &[u32],
    next_nodes: u32,
    next_live: u64,
    next_triples: &[u32],
    out: &mut [u8],
) -> u64
    ensures result { result ≡ packed (answer_of (dying_reply (graph_input nodes live triples.now) (graph_input next_nodes next_live next_triples.now) (length out.old))) }
    ensures written { out.new ≡ output_after (dying_reply (graph_input nodes live triples.now) (graph_input next_nodes next_live next_triples.now) (length out.old)) out.old }
    ensures means { IfOk (answer_of (dying_reply (graph_input nodes live triples.now) (graph_input next_nodes next_live next_triples.now) (length out.old))) (λ m. DyingList (graph_of (graph_input nodes live triples.now)) (graph_of (graph_input next_nodes next_live next_triples.now)) (take m out.new)) }
{
    let here = InputGraph {
        nodes,
        live,
        triples,
    };
    let next = InputGraph {
        nodes: next_nodes,
        live: next_live,
        triples: next_triples,
    };
    pack(borrow_info::dying(here, next, out))
}

// How many bytes the text of livelist has, and the text at the front of `out`.
pub fn sorzibelu_livelist(sheet: &[u8], out: &mut [u8]) -> u64
    ensures result { result ≡ packed (answer_of (livelist_reply sheet.now (length out.old))) }
    ensures written { out.new ≡ output_after (livelist_reply sheet.now (length out.old)) out.old }
{
    pack(live_text::livelist::livelist(sheet, out))
}

// How many bytes the page of a sheet has, and the page at the front of `out`.
pub fn sorzibelu_page(sheet: &[u8], out: &mut [u8]) -> u64
    ensures result { result ≡ packed (answer_of (page_reply sheet.now (length out.old))) }
    ensures written { out.new ≡ output_after (page_reply sheet.now (length out.old)) out.old }
{
    pack(page::page::page(sheet, out))
}
