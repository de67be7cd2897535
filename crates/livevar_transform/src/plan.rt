// The plan of a rewriting, filled in one pass: what becomes of each offset and what each edge loses; and the new code counted by it. Assumes nothing.
ghost use Rattle.std.specs.Prelude.{◌≡◌, map, ◌*◌, ◌+◌, ◌/◌, ◌<◌, ◌≤◌, max, get_or, length};
ghost use Rattle.std.specs.Int.Bits.{bit_and};
ghost use Rattle.base.specs.Sizes.{set_bytes, max_locals, max_instructions};
ghost use Rattle.base.specs.Bytes.{number, part};
ghost use Rattle.dataflow_domains.specs.Sets.{mask};
ghost use Rattle.dataflow_domains.specs.Members.{members};
ghost use Rattle.stackless_bytecode.specs.Kinds.{at, label_of};
ghost use Rattle.sheet.specs.Layout.{code_of};
ghost use Rattle.livevar_analysis.specs.Analysis.{infos_of};
ghost use Rattle.livevar_transform.specs.Rewrite.{is_dead, is_merged, highest, next_free_label, next_free_attr};
ghost use Rattle.livevar_transform.specs.Plan.{Ready, sides_at, is_behind, fate_of, lost_by, MergedInside, Planned, past, lost_at, NextBelow, next_room, LowNext, Counted};

use base::{PAIR_BYTES, SET_BYTES};
use dataflow_domains::LiveVarState;
use sheet::accepted::{AcceptedSheet, ResolvedSheet};
use stackless_bytecode::{Bytecode, Kind};

// What becomes of an offset.
#[derive(Clone, Copy, PartialEq, Eq)]
pub enum Fate {
    Kept,
    Dropped,
    // Kept, with the destination of the Assign behind it.
    Merged,
}

// The numbers that come next: a new label, and a new attribute id.
#[derive(Clone, Copy)]
pub struct Next {
    pub label: u32,
    pub attr: u32,
}

// What the new code has: kept instructions, and the numbers behind those of all new blocks.
#[derive(Clone, Copy)]
pub struct Counts {
    pub kept: usize,
    pub next: Next,
}

// An accepted sheet, and the bytes of the sets before and after each instruction.
#[derive(Clone, Copy)]
pub struct LiveSheet<'a> {
    pub sheet: ResolvedSheet<'a>,
    pub info: &'a [u8],
    pub ghost ready: { Ready sheet.bytes.now sheet.targets.now info.now sheet.count },
}

// The instruction r, at its offset k.
#[derive(Clone, Copy)]
struct Here<'a> {
    live: LiveSheet<'a>,
    k: usize,
    r: Bytecode,
    ghost inside: { k < live.sheet.count },
    ghost here: { r ≡ at (code_of live.sheet.bytes.now) k },
}

// A plan of an accepted sheet: what becomes of each offset, and what each edge loses, the then edge of offset k at 2k, its else edge behind it.
#[derive(Clone, Copy)]
pub struct Plan<'a> {
    pub sheet: AcceptedSheet<'a>,
    pub fates: &'a [Fate],
    pub lost: &'a [LiveVarState],
    pub ghost offsets: { sheet.count ≤ length fates.now },
    pub ghost edges: { 2 * sheet.count ≤ length lost.now },
    pub ghost merged: { MergedInside fates.now sheet.count },
}

// The set whose bytes start at `at`.
pub fn set_in(p: &[u8], at: usize) -> LiveVarState
    requires { at + set_bytes ≤ length p.now }
    ensures { mask result ≡ number (part p.now at set_bytes) }
{
    LiveVarState::load_bytes(&p[at..at + SET_BYTES])
}

// The elements of both sets.
fn common(a: LiveVarState, b: LiveVarState) -> LiveVarState
    ensures { mask result ≡ bit_and (mask a) (mask b) }
{
    a.without(a.without(b))
}

impl<'a> LiveSheet<'a> {
    // The set before instruction k.
    fn before(self, k: usize) -> LiveVarState
        requires { k < self.sheet.count }
        ensures { mask result ≡ (sides_at self.entry.info.now k).before }
    {
        set_in(self.info, PAIR_BYTES * k)
    }

    // The set after it.
    fn after(self, k: usize) -> LiveVarState
        requires { k < self.sheet.count }
        ensures { mask result ≡ (sides_at self.entry.info.now k).after }
    {
        set_in(self.info, PAIR_BYTES * k + SET_BYTES)
    }
}

impl<'a> Here<'a> {
    // Whether it is a Load or an Assign whose destination is not in after.
    fn is_dead(self) -> bool
        ensures { result ≡ is_dead (code_of self.entry.live.sheet.bytes.now) (infos_of self.entry.live.sheet.count self.entry.live.info.now) self.entry.k }
    {
        let sets_one = self.r.is(Kind::Assign) | self.r.is(Kind::Load);
        sets_one && !self.live.after(self.k).has(self.r.dsts[0])
    }

    // Whether it is a Call with one destination, directly before an Assign from it, and that destination is not in the Assign's after.
    fn is_merged(self) -> bool
        ensures { result ≡ is_merged (code_of self.entry.live.sheet.bytes.now) (infos_of self.entry.live.sheet.count self.entry.live.info.now) self.entry.k }
    {
        if !self.r.is(Kind::Call) {
            return false;
        }
        if self.r.ndst != 1 {
            return false;
        }
        if self.live.sheet.count <= self.k + 1 {
            return false;
        }
        let a = self.live.sheet.instruction(self.k + 1);
        if !a.is(Kind::Assign) {
            return false;
        }
        if a.srcs[0] != self.r.dsts[0] {
            return false;
        }
        !self.live.after(self.k + 1).has(self.r.dsts[0])
    }

    // What becomes of it; `behind`: the Call before it is merged.
    fn fate(self, behind: bool) -> Fate
        requires { behind ≡ is_behind (code_of self.live.sheet.bytes.now) (infos_of self.live.sheet.count self.live.info.now) self.k }
        ensures { result ≡ fate_of (code_of self.entry.live.sheet.bytes.now) (infos_of self.entry.live.sheet.count self.entry.live.info.now) self.entry.k }
    {
        if behind {
            return Fate::Dropped;
        }
        if self.is_dead() {
            return Fate::Dropped;
        }
        if self.is_merged() {
            return Fate::Merged;
        }
        Fate::Kept
    }

    // The references that its edge e loses: in the Branch's after, and not in its target's before.
    fn lost_on(self, refs: LiveVarState, e: usize) -> LiveVarState
        requires { e / 2 ≡ self.k }
        ensures { mask result ≡ lost_by self.entry.live.sheet.targets.now self.entry.live.info.now (mask refs) e self.entry.r }
    {
        if !self.r.is(Kind::Branch) {
            return LiveVarState::empty();
        }
        let target = usize::from(self.live.sheet.targets[e]);
        common(self.live.after(self.k), refs).without(self.live.before(target))
    }
}

// The plan of the sheet into the lent arrays, where `refs` are the references.
pub fn fill_plan(live: LiveSheet, refs: LiveVarState, fates: &mut [Fate], lost: &mut [LiveVarState])
    requires offsets { live.sheet.count ≤ length fates.old }
    requires edges { 2 * live.sheet.count ≤ length lost.old }
    ensures planned { Planned (code_of live.entry.sheet.bytes.now) (infos_of live.entry.sheet.count live.entry.info.now) (mask refs) fates.new (map mask lost.new) live.entry.sheet.count }
    ensures offsets { length fates.new ≡ length fates.old }
    ensures edges { length lost.new ≡ length lost.old }
{
    let mut behind = false;
    for k in 0..live.sheet.count {
        let here = Here {
            live,
            k,
            r: live.sheet.instruction(k),
        };
        let fate = here.fate(behind);
        fates[k] = fate;
        lost[2 * k] = here.lost_on(refs, 2 * k);
        lost[2 * k + 1] = here.lost_on(refs, 2 * k + 1);
        behind = fate == Fate::Merged;
    }
}

impl<'a> LiveSheet<'a> {
    // The plan, where `refs` are the references.
    pub fn plan(
        self,
        refs: LiveVarState,
        fates: &'a mut [Fate],
        lost: &'a mut [LiveVarState],
    ) -> Plan<'a>
        requires offsets { self.sheet.count ≤ length fates.old }
        requires edges { 2 * self.sheet.count ≤ length lost.old }
        ensures bytes { result.sheet.bytes.now ≡ self.entry.sheet.bytes.now }
        ensures count { result.sheet.count ≡ self.entry.sheet.count }
        ensures planned { Planned (code_of self.entry.sheet.bytes.now) (infos_of self.entry.sheet.count self.entry.info.now) (mask refs) result.fates.now (map mask result.lost.now) self.entry.sheet.count }
    {
        fill_plan(self, refs, fates, lost);
        Plan {
            sheet: self.sheet.accepted(),
            fates,
            lost,
        }
    }
}

// The higher of a Label's number and those before it.
#[tactic(auto, unfolding(stackless_bytecode::specs::Kinds::label_of, crate::specs::Rewrite::highest))]
fn label_over(top: u16, r: Bytecode) -> u16
    ensures { result ≡ max top (highest (label_of r)) }
{
    if r.is(Kind::Label) {
        top.max(r.one)
    } else {
        top
    }
}

// The higher of an attribute id and those before it.
fn attr_over(top: u16, r: Bytecode) -> u16
    ensures { result ≡ max top r.attr }
{
    top.max(r.attr)
}

// The first new numbers: above the highest Label, and above the highest attribute id.
pub fn first_numbers(sheet: AcceptedSheet) -> Next
    ensures label { result.label ≡ next_free_label (code_of sheet.entry.bytes.now) }
    ensures attr { result.attr ≡ next_free_attr (code_of sheet.entry.bytes.now) }
    ensures low { LowNext result }
{
    let mut label = 0;
    let mut attr = 0;
    for k in 0..sheet.count {
        let r = sheet.instruction(k);
        label = label_over(label, r);
        attr = attr_over(attr, r);
    }
    Next {
        label: u32::from(label) + 1,
        attr: u32::from(attr) + 1,
    }
}

impl Next {
    // Behind an edge that loses these references: a label, and an id for the Label, each Destroy and the Jump.
    pub fn past(self, lost: LiveVarState) -> Next
        requires { NextBelow (2 * next_room) self }
        ensures { result ≡ past self (members max_locals (mask lost)) }
    {
        if lost.is_empty() {
            return self;
        }
        Next {
            label: self.label + 1,
            attr: self.attr + lost.ones() + 2,
        }
    }
}

impl<'a> Plan<'a> {
    // The references that edge e loses.
    pub fn lost(self, e: usize) -> LiveVarState
        requires { e < 2 * self.sheet.count }
        ensures { mask result ≡ get_or (map mask self.entry.lost.now) e 0 }
    {
        self.lost[e]
    }
}

// The numbers behind both edges of offset k.
pub fn past_both(lost: &[LiveVarState], k: usize, next: Next) -> Next
    requires below { NextBelow next_room next }
    requires room { 2 * k + 2 ≤ length lost.now }
    ensures { result ≡ past (past next (lost_at (map mask lost.now) (2 * k))) (lost_at (map mask lost.now) (2 * k + 1)) }
{
    next.past(lost[2 * k]).past(lost[2 * k + 1])
}

// What the new code has, counted before it is written.
pub fn count(fates: &[Fate], lost: &[LiveVarState], n: usize, first: Next) -> Counts
    requires few { n ≤ max_instructions }
    requires offsets { n ≤ length fates.now }
    requires edges { 2 * n ≤ length lost.now }
    requires low { LowNext first }
    ensures { Counted fates.now (map mask lost.now) n first result }
{
    let mut kept = 0;
    let mut next = first;
    for k in 0..n {
        if fates[k] != Fate::Dropped {
            kept += 1;
        }
        next = past_both(lost, k, next);
    }
    Counts { kept, next }
}
