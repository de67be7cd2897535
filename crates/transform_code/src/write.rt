// The new code by its plan, record behind record: the kept instructions, then the block of each edge that loses references. Assumes nothing.
ghost use Rattle.std.specs.Prelude.{◌≡◌, cond, map, ◌+◌, ◌*◌, ◌/◌, ◌<◌, ◌≤◌, eqb, length};
ghost use Rattle.std.specs.Int.Count.{ones};
ghost use Rattle.base.specs.Sizes.{max_locals, max_number, max_instructions, record_bytes};
ghost use Rattle.base.specs.Lists.{joins};
ghost use Rattle.dataflow_domains.specs.Sets.{mask};
ghost use Rattle.dataflow_domains.specs.Members.{members};
ghost use Rattle.stackless_bytecode.specs.Kinds.{at};
ghost use Rattle.sheet.specs.Layout.{code_of};
ghost use Rattle.sheet_writer.specs.Written.{placed};
ghost use Rattle.livevar_transform.specs.Rewrite.{destroys, destroy_block, target_of};
ghost use Rattle.livevar_transform.specs.Plan.{NewBlockRoom, BlockFits, LabelsFit, Fitting, NextBelow, next_room, LowNext, lost_at, past, goes_at, aimed_at, stands_at, kept_at, added_at, kept_by, added_by, code_by};

use base::RECORD_BYTES;
use dataflow_domains::LiveVarState;
use livevar_transform::instructions::{destroy, mark, with_dsts, with_labels};
use livevar_transform::plan::{Fate, Next, Plan, past_both};
use sheet::accepted::AcceptedSheet;
use sheet_writer::writer::encode;
use stackless_bytecode::{Bytecode, Kind};

// A plan, and the first numbers of its new blocks, which all fit.
#[derive(Clone, Copy)]
pub struct NumberedPlan<'a> {
    pub plan: Plan<'a>,
    pub first: Next,
    pub ghost fits: { Fitting (map mask plan.lost.now) plan.sheet.count first },
    pub ghost low: { LowNext first },
}

// A plan at offset k, and the numbers that come next.
#[derive(Clone, Copy)]
struct Turn<'a> {
    plan: Plan<'a>,
    k: usize,
    next: Next,
    ghost inside: { k < plan.sheet.count },
    ghost below: { NextBelow next_room next },
    ghost labels: { LabelsFit (map mask plan.lost.now) k next },
}

// The label that an edge goes to: a new one where it loses references.
fn goes_to(old: u16, lost: LiveVarState, label: u32) -> u16
    requires { 0 < length (members max_locals (mask lost)) → label ≤ max_number }
    ensures { result ≡ goes_at (members max_locals (mask lost)) old label }
{
    if lost.is_empty() {
        return old;
    }
    label as u16
}

// The Branch r, aimed at the labels that its edges go to, then before else.
fn aim(turn: Turn, r: Bytecode) -> Bytecode
    ensures { result ≡ aimed_at (map mask turn.entry.plan.lost.now) turn.entry.k turn.entry.next r }
{
    let then = turn.plan.lost(2 * turn.k);
    let other = turn.plan.lost(2 * turn.k + 1);
    let one = goes_to(r.one, then, turn.next.label);
    let second = turn.next.past(then);
    let two = goes_to(r.two, other, second.label);
    with_labels(r, one, two)
}

// What stands for the offset, if it is kept.
fn stands_for(turn: Turn) -> Bytecode
    ensures { result ≡ stands_at (code_of turn.entry.plan.sheet.bytes.now) turn.entry.plan.fates.now (map mask turn.entry.plan.lost.now) turn.entry.k turn.entry.next }
{
    let plan = turn.plan;
    let r = plan.sheet.instruction(turn.k);
    if r.is(Kind::Branch) {
        return aim(turn, r);
    }
    if plan.fates[turn.k] == Fate::Merged {
        let a = plan.sheet.instruction(turn.k + 1);
        return with_dsts(r, a.dsts);
    }
    r
}

// The record of the offset at the front of `out`, if it is kept; how many that is, to be added up.
fn put_kept(turn: Turn, out: &mut [u8]) -> usize
    requires { record_bytes ≤ length out.old }
    ensures long { result ≡ length (kept_at (code_of turn.entry.plan.sheet.bytes.now) turn.entry.plan.fates.now (map mask turn.entry.plan.lost.now) turn.entry.k turn.entry.next) }
    ensures low { result ≤ 1 }
    ensures written { out.new ≡ placed (kept_at (code_of turn.entry.plan.sheet.bytes.now) turn.entry.plan.fates.now (map mask turn.entry.plan.lost.now) turn.entry.k turn.entry.next) out.old }
{
    if turn.plan.fates[turn.k] == Fate::Dropped {
        return 0;
    }
    let r = stands_for(turn);
    encode(r, &mut out[0..RECORD_BYTES]);
    1
}

// All kept instructions, by offset; how many they are.
fn put_all_kept(numbered: NumberedPlan, out: &mut [u8]) -> usize
    requires { record_bytes * max_instructions ≤ length out.old }
    ensures long { result ≡ length (joins numbered.entry.plan.sheet.count (kept_by (code_of numbered.entry.plan.sheet.bytes.now) numbered.entry.plan.fates.now (map mask numbered.entry.plan.lost.now) numbered.entry.first)) }
    ensures written { out.new ≡ placed (joins numbered.entry.plan.sheet.count (kept_by (code_of numbered.entry.plan.sheet.bytes.now) numbered.entry.plan.fates.now (map mask numbered.entry.plan.lost.now) numbered.entry.first)) out.old }
{
    let plan = numbered.plan;
    let mut next = numbered.first;
    // How many records are written: no index of the loop's range.
    let mut m = 0;
    for k in 0..plan.sheet.count {
        let at = RECORD_BYTES * m;
        m += put_kept(Turn { plan, k, next }, &mut out[at..]);
        next = past_both(plan.lost, k, next);
    }
    m
}

// A Destroy for each of these references, ascending, with attribute ids from `first` on.
fn put_destroys(lost: LiveVarState, first: u32, out: &mut [u8])
    requires ids { first + ones (mask lost) ≤ max_number }
    requires room { record_bytes * ones (mask lost) ≤ length out.old }
    ensures { out.new ≡ placed (destroys first (members max_locals (mask lost))) out.old }
{
    let mut left = lost;
    // How many records are written: no index of a range.
    let mut i = 0u32;
    // The walk by trailing zeros: form by place.
    while let Some((local, rest)) = left.split_lowest() {
        let at = RECORD_BYTES * i as usize;
        encode(
            destroy((first + i) as u16, local),
            &mut out[at..at + RECORD_BYTES],
        );
        left = rest;
        i += 1;
    }
}

// The block of an edge that loses these references: Label, the Destroys, Jump to the old target.
fn put_block(next: Next, target: u16, lost: LiveVarState, out: &mut [u8])
    requires { NewBlockRoom next (mask lost) (length out.old) }
    ensures { out.new ≡ placed (destroy_block next.attr next.label target (members max_locals (mask lost))) out.old }
{
    let count = lost.ones();
    let attr = next.attr;
    encode(
        mark(Kind::Label as u8, attr as u16, next.label as u16),
        &mut out[0..RECORD_BYTES],
    );
    put_destroys(lost, attr + 1, &mut out[RECORD_BYTES..]);
    let at = RECORD_BYTES * (1 + count as usize);
    encode(
        mark(Kind::Jump as u8, (attr + 1 + count) as u16, target),
        &mut out[at..at + RECORD_BYTES],
    );
}

// The label that edge e goes to in the old code.
fn target_of(sheet: AcceptedSheet, e: usize) -> u16
    requires { e < 2 * sheet.count }
    ensures { result ≡ target_of (code_of sheet.entry.bytes.now) e }
{
    let r = sheet.instruction(e / 2);
    if e % 2 == 0 {
        return r.one;
    }
    r.two
}

// The block of edge e at the front of `out`, if it loses references; the numbers behind it.
fn put_edge(plan: Plan, e: usize, next: Next, out: &mut [u8]) -> Next
    requires inside { e < 2 * plan.sheet.count }
    requires below { NextBelow next_room next }
    requires fits { BlockFits (lost_at (map mask plan.lost.now) e) next (length out.old) }
    ensures next { result ≡ past next (lost_at (map mask plan.entry.lost.now) e) }
    ensures written { out.new ≡ placed (added_at (code_of plan.entry.sheet.bytes.now) (map mask plan.entry.lost.now) e next) out.old }
{
    let gone = plan.lost(e);
    if gone.is_empty() {
        return next.past(gone);
    }
    let target = target_of(plan.sheet, e);
    put_block(next, target, gone, out);
    next.past(gone)
}

// All blocks, by edge.
fn put_all_blocks(numbered: NumberedPlan, out: &mut [u8])
    requires { record_bytes * length (joins (2 * numbered.plan.sheet.count) (added_by (code_of numbered.plan.sheet.bytes.now) (map mask numbered.plan.lost.now) numbered.first)) ≤ length out.old }
    ensures { out.new ≡ placed (joins (2 * numbered.entry.plan.sheet.count) (added_by (code_of numbered.entry.plan.sheet.bytes.now) (map mask numbered.entry.plan.lost.now) numbered.entry.first)) out.old }
{
    let plan = numbered.plan;
    let first = numbered.first;
    let mut next = first;
    for e in 0..2 * plan.sheet.count {
        let at = RECORD_BYTES * (next.attr - first.attr) as usize;
        next = put_edge(plan, e, next, &mut out[at..]);
    }
}

// The new code, record behind record at the front of `out`: the kept instructions, then the blocks.
pub fn transform_code(numbered: NumberedPlan, out: &mut [u8])
    requires few { length (code_by (code_of numbered.plan.sheet.bytes.now) numbered.plan.fates.now (map mask numbered.plan.lost.now) numbered.plan.sheet.count numbered.first) ≤ max_instructions }
    requires room { record_bytes * max_instructions ≤ length out.old }
    ensures { out.new ≡ placed (code_by (code_of numbered.entry.plan.sheet.bytes.now) numbered.entry.plan.fates.now (map mask numbered.entry.plan.lost.now) numbered.entry.plan.sheet.count numbered.entry.first) out.old }
{
    let m = put_all_kept(numbered, out);
    let at = RECORD_BYTES * m;
    put_all_blocks(numbered, &mut out[at..]);
}
