// The engine of live: the first-in work list over the backward graph, in lent slices. Assumes nothing.
ghost use Rattle.std.specs.Prelude.{◌≡◌, List, ℕ, ◌+◌, ◌-◌, ◌<◌, ◌≤◌, length};
ghost use Rattle.base.specs.Lists.{tab};
ghost use Rattle.base.specs.Sizes.{max_number};
ghost use Rattle.dataflow_domains.specs.Sets.{mask};
ghost use Rattle.dataflow_analysis.specs.Receipt.{SameSlices};
ghost use Rattle.stackless_bytecode.specs.declared.Bytecode.{Bytecode};
ghost use Rattle.stackless_bytecode.specs.Sound.{Sound};
ghost use Rattle.stackless_control_flow_graph.specs.Blocks.{keyed};
ghost use Rattle.stackless_control_flow_graph.specs.Graph.{Edges};
ghost use Rattle.livevar_analysis.specs.Engine.{RunTables, CanHand, HandedOn, CanOut, given, leads, CanHandKey, Begun, CanRun, RunInput, CanStart, SolveInput, CanSolve, Solved};

use base::{MAX_INSTRUCTIONS, MAX_TAKEN};
use dataflow_analysis::{Cursor, Worklist};
use dataflow_domains::LiveVarState;
use livevar_analysis::execute::execute_block;
use livevar_analysis::tables::Tables;

// The keys of the most blocks, and the two dummies.
pub const NODES: usize = MAX_INSTRUCTIONS + 2;

// The nodes of a part each receive m.
fn hand_on(list: &mut Worklist<'_>, part: &[u16], m: LiveVarState)
    requires { CanHand list.old part.now (mask m) }
    ensures { HandedOn list.old part.now (mask m) list.new }
{
    for &p in part {
        list.receive(p, m);
    }
}

// All blocks, by ascending key, each receive m. They are no part of `edges`; one function over any list of nodes would ask for an iterator's clauses, and save one line.
fn hand_all(list: &mut Worklist<'_>, m: LiveVarState)
    requires hands { CanHand list.old (tab (length list.old.met.now - 2) 2 (λ b. b)) (mask m) }
    requires few { length list.old.met.now ≤ max_number + 1 }
    ensures { HandedOn list.old (tab (length list.old.met.now - 2) 2 (λ b. b)) (mask m) list.new }
{
    for k in 2..list.met.len() {
        list.receive(k as u16, m);
    }
}

// What key k hands on: a dummy its own set, a block the set before it.
fn out_of(tables: &Tables<'_>, list: &Worklist<'_>, k: u16) -> LiveVarState
    requires { CanOut tables.now list.now.sets.now k }
    ensures { (code : List Bytecode) → Sound code → RunTables code tables.now → k < 2 + length (keyed code) → mask result ≡ given code list.now.sets.now k }
{
    let key = usize::from(k);
    let own = list.sets[key];
    if key < 2 {
        return own;
    }
    let b = key - 2;
    let lower = usize::from(tables.lower_of_key[b]);
    let upper = usize::from(tables.upper_of_key[b]);
    execute_block(tables.rules, lower, upper, own)
}

// Key k, which is off the list, hands on m: key 1 to all blocks, any other to its part of `edges`.
fn hand_key(tables: &Tables<'_>, list: &mut Worklist<'_>, k: u16, m: LiveVarState)
    requires { CanHandKey tables.now list.old k (mask m) }
    ensures { (code : List Bytecode) → Edges code tables.now.first_edge.now tables.now.edges.now → length list.old.met.now ≡ 2 + length (keyed code) → HandedOn list.old (leads code k) (mask m) list.new }
{
    if k == 1 {
        return hand_all(list, m);
    }
    let key = usize::from(k);
    let from = usize::from(tables.first_edge[key]);
    let to = usize::from(tables.first_edge[key + 1]);
    hand_on(list, &tables.edges[from..to], m);
}

// Keys are taken from the list until it is empty. Every one moves the cursor's head, so that in the end the head is the count.
fn run(tables: &Tables<'_>, list: &mut Worklist<'_>)
    requires { CanRun tables.now list.old }
    ensures same { SameSlices list.old list.new }
    ensures fits { list.new.cursor.head + list.new.cursor.len ≤ length list.new.queue.now }
    ensures solved { (code : List Bytecode) (locals : ℕ) → Begun code locals tables.now list.old → Solved code locals list.new.cursor.head list.new.sets.now }
{
    while let Some(k) = list.take() {
        let m = out_of(tables, list, k);
        hand_key(tables, list, k, m);
    }
}

// The run from the start: key 1 is met and waits first.
fn start_run(
    tables: &Tables<'_>,
    sets: &mut [LiveVarState],
    met: &mut [bool],
    queue: &mut [u16],
) -> u32
    requires { CanStart tables.now sets.old met.old queue.old }
    ensures { (code : List Bytecode) (locals : ℕ) → RunInput code locals tables.now sets.old met.old queue.old → Solved code locals result sets.new }
{
    let cursor = Cursor::new().put(queue, 1);
    met[1] = true;
    let mut list = Worklist {
        sets,
        met,
        queue,
        cursor,
    };
    run(tables, &mut list);
    list.cursor.head as u32
}

// The sets of all keys of m blocks, in `sets`, which are empty, and how many keys were taken.
pub fn solve(tables: &Tables<'_>, m: usize, sets: &mut [LiveVarState]) -> u32
    requires { CanSolve tables.now m sets.old }
    ensures { (code : List Bytecode) (locals : ℕ) → SolveInput code locals tables.now m sets.old → Solved code locals result sets.new }
{
    let mut met = [false; NODES];
    let mut queue = [0u16; MAX_TAKEN];
    let nodes = m + 2;
    let met = &mut met[..nodes];
    start_run(tables, &mut sets[..nodes], met, &mut queue)
}
