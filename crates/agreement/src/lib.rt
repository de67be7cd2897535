// Whether a call answers as it is stored. Assumes nothing.
#![tactic(auto)]

ghost use Rattle.std.specs.Prelude.{◌*◌, ◌≤◌, ◌≡◌, ◌↔◌, ℕ, length, IsTrue};
ghost use Rattle.base.specs.Refusals.{Reply, answer_of, output_after};
ghost use Rattle.c_api.specs.Packed.{packed, check_reply};
ghost use Rattle.borrow_analysis.specs.Graph.{input_of};
ghost use Rattle.borrow_analysis.specs.Borrows.{in_use_reply, conditional_reply, dying_reply};
ghost use Rattle.stackless_control_flow_graph.specs.Blocks.{flow_reply};
ghost use Rattle.label.specs.LabelCall.{label_reply};
ghost use Rattle.livevar_analysis.specs.Analysis.{live_reply};
ghost use Rattle.livevar_transform.specs.Rewrite.{rewrite_reply};
ghost use Rattle.eliminate_unused_vars.specs.Renumber.{renumber_reply};
ghost use Rattle.agreement.specs.Agree.{SameResult, Agrees, AgreesPairs, AgreesClass, at_front, pairs};

pub use borrow_analysis::graph::InputGraph;
use c_api::{
    sorzibelu_check, sorzibelu_conditional, sorzibelu_dying, sorzibelu_flow, sorzibelu_in_use,
    sorzibelu_label, sorzibelu_live, sorzibelu_live_class, sorzibelu_renumber, sorzibelu_rewrite,
};

// How much a case lends; the result that is stored; and what is then wanted of the whole array of which the front is lent: what the call writes, and behind it the fill.
#[derive(Clone, Copy)]
pub struct StoredCase<'a> {
    pub lent: usize,
    pub result: u64,
    pub want: &'a [u8],
}

// A call that is lent bytes: its reply, where so many are.
pub trait LentCall {
    ghost reply: { Self → ℕ → Reply };

    fn ask(&self, out: &mut [u8]) -> u64
        ensures result { result ≡ packed (answer_of (reply self.now (length out.old))) }
        ensures written { out.new ≡ output_after (reply self.now (length out.old)) out.old };
}

#[derive(Clone, Copy)]
pub struct Live<'a> {
    pub sheet: &'a [u8],
}

impl<'a> LentCall for Live<'a> {
    ghost reply = { λ call. live_reply call.sheet.now };

    fn ask(&self, out: &mut [u8]) -> u64 {
        sorzibelu_live(self.sheet, out)
    }
}

#[derive(Clone, Copy)]
pub struct Rewrite<'a> {
    pub sheet: &'a [u8],
}

impl<'a> LentCall for Rewrite<'a> {
    ghost reply = { λ call. rewrite_reply call.sheet.now };

    fn ask(&self, out: &mut [u8]) -> u64 {
        sorzibelu_rewrite(self.sheet, out)
    }
}

#[derive(Clone, Copy)]
pub struct Renumber<'a> {
    pub sheet: &'a [u8],
}

impl<'a> LentCall for Renumber<'a> {
    ghost reply = { λ call. renumber_reply call.sheet.now };

    fn ask(&self, out: &mut [u8]) -> u64 {
        sorzibelu_renumber(self.sheet, out)
    }
}

#[derive(Clone, Copy)]
pub struct Dying<'a> {
    pub graph: InputGraph<'a>,
    pub next: InputGraph<'a>,
}

impl<'a> LentCall for Dying<'a> {
    ghost reply = { λ call. dying_reply (input_of call.graph) (input_of call.next) };

    fn ask(&self, out: &mut [u8]) -> u64 {
        let Dying { graph, next } = self;
        sorzibelu_dying(
            graph.nodes,
            graph.live,
            graph.triples,
            next.nodes,
            next.live,
            next.triples,
            out,
        )
    }
}

// Whether a call replied with the stored result, and left what is wanted.
fn agrees(got: u64, stored: StoredCase<'_>, out: &[u8]) -> bool
    ensures { IsTrue result ↔ ((got ≡ stored.entry.result) × (out.now ≡ stored.entry.want.now)) }
{
    got == stored.result && out == stored.want
}

// The same of a call that is lent the front of `out`.
pub fn lent_agrees<C: LentCall>(call: &C, stored: StoredCase<'_>, out: &mut [u8]) -> bool
    requires { stored.lent ≤ length out.old }
    ensures { IsTrue result ↔ Agrees (C.reply call.now stored.entry.lent) stored.entry.lent stored.entry.result out.old stored.entry.want.now }
{
    let got = call.ask(&mut out[..stored.lent]);
    agrees(got, stored, out)
}

// The two bytes of each number, at the front of `out`.
fn bytes_of(table: &[u16], out: &mut [u8])
    requires { 2 * length table.now ≤ length out.old }
    ensures { out.new ≡ at_front (pairs table.now) out.old }
{
    for (i, x) in table.iter().enumerate() {
        let [low, high] = x.to_le_bytes();
        out[2 * i] = low;
        out[2 * i + 1] = high;
    }
}

// Of flow, whose table is lent in 16-bit numbers and compared in bytes.
pub fn flow_agrees(sheet: &[u8], stored: StoredCase<'_>, table: &mut [u16], out: &mut [u8]) -> bool
    requires table { stored.lent ≤ length table.old }
    requires out { 2 * length table.old ≤ length out.old }
    ensures { IsTrue result ↔ AgreesPairs (flow_reply sheet.now stored.entry.lent) stored.entry.lent stored.entry.result table.old out.old stored.entry.want.now }
{
    let got = sorzibelu_flow(sheet, &mut table[..stored.lent]);
    bytes_of(table, out);
    agrees(got, stored, out)
}

// Of a class set, which is lent `numbers` of the answers, and bytes of `sets` as the case says; `numbered` is what is wanted of the answers.
pub fn live_class_agrees(
    sheets: &[u8],
    stored: StoredCase<'_>,
    numbers: usize,
    numbered: &[u32],
    sets: &mut [u8],
    answers: &mut [u32],
) -> bool
    requires sets { stored.lent ≤ length sets.old }
    requires answers { numbers ≤ length answers.old }
    ensures { IsTrue result ↔ AgreesClass sheets.now stored.entry.lent numbers stored.entry.result sets.old answers.old stored.entry.want.now numbered.now }
{
    let got = sorzibelu_live_class(sheets, &mut sets[..stored.lent], &mut answers[..numbers]);
    *answers == *numbered && agrees(got, stored, sets)
}

// The calls that are lent nothing stay apart: each is one comparison, and a generic one would hold no more.
pub fn check_agrees(sheet: &[u8], res: u64) -> bool
    ensures { IsTrue result ↔ SameResult (check_reply sheet.now) res }
{
    sorzibelu_check(sheet) == res
}

pub fn label_agrees(sheet: &[u8], label: u32, res: u64) -> bool
    ensures { IsTrue result ↔ SameResult (label_reply sheet.now label) res }
{
    sorzibelu_label(sheet, label) == res
}

pub fn in_use_agrees(graph: InputGraph<'_>, node: u32, res: u64) -> bool
    ensures { IsTrue result ↔ SameResult (in_use_reply (input_of graph.entry) node) res }
{
    sorzibelu_in_use(graph.nodes, graph.live, graph.triples, node) == res
}

pub fn conditional_agrees(graph: InputGraph<'_>, node: u32, res: u64) -> bool
    ensures { IsTrue result ↔ SameResult (conditional_reply (input_of graph.entry) node) res }
{
    sorzibelu_conditional(graph.nodes, graph.live, graph.triples, node) == res
}
