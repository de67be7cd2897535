// The port of state_per_instruction: the sets before and after each instruction, from the last to the first, as bytes in a lent slice. Assumes nothing.
ghost use Rattle.std.specs.Prelude.{◌≡◌, List, ◌++◌, ℕ, ◌+◌, ◌*◌, ◌<◌, ◌≤◌, length, drop};
ghost use Rattle.base.specs.Sizes.{pair_bytes};
ghost use Rattle.dataflow_domains.specs.Sets.{mask};
ghost use Rattle.stackless_bytecode.specs.declared.Bytecode.{Bytecode};
ghost use Rattle.livevar_analysis.specs.Analysis.{live_bytes};
ghost use Rattle.livevar_analysis.specs.Rules.{Ruled};
ghost use Rattle.livevar_analysis.specs.Output.{infos_by, side_bytes, is_end, after_by, KeySets, Blocked};

use base::{PAIR_BYTES, SET_BYTES};
use dataflow_domains::LiveVarState;
use livevar_analysis::rules::Rule;

// Whether instruction k is the last of its block: the next one has another key.
fn ends(keys: &[u16], k: usize) -> bool
    requires { k < length keys.now }
    ensures { result ≡ is_end keys.now (length keys.now) k }
{
    k + 1 == keys.len() || keys[k + 1] != keys[k]
}

// The set after instruction k: at the end of a block that of the block's key, else m, the set before the next instruction.
fn after_of(keys: &[u16], sets: &[LiveVarState], k: usize, m: LiveVarState) -> LiveVarState
    requires sets { KeySets (length keys.now) keys.now sets.now }
    requires inside { k < length keys.now }
    ensures { mask result ≡ after_by keys.now sets.now (length keys.now) k (mask m) }
{
    if ends(keys, k) {
        return sets[usize::from(keys[k])];
    }
    m
}

// The bytes of before, then of after.
fn put_info(before: LiveVarState, after: LiveVarState, out: &mut [u8])
    requires { length out.old ≡ pair_bytes }
    ensures { out.new ≡ side_bytes (mask before) (mask after) }
{
    before.store_bytes(&mut out[0..SET_BYTES]);
    after.store_bytes(&mut out[SET_BYTES..PAIR_BYTES]);
}

// The sets of all instructions: their rules, the key of each, and in `sets` the set after each block, by key. The parts are lent by index: of what is written through chunks_exact_mut a proof knows the length alone.
pub fn write_info(rules: &[Rule], keys: &[u16], sets: &[LiveVarState], out: &mut [u8])
    requires rules { length keys.now ≤ length rules.now }
    requires sets { KeySets (length keys.now) keys.now sets.now }
    requires room { pair_bytes * length keys.now ≤ length out.old }
    ensures { (code : List Bytecode) (ms : List ℕ) → length keys.now ≡ length code → Ruled code rules.now → Blocked code ms keys.now sets.now → out.new ≡ live_bytes (infos_by code ms) ++ drop (pair_bytes * length keys.now) out.old }
{
    let mut m = LiveVarState::empty();
    for k in (0..keys.len()).rev() {
        let after = after_of(keys, sets, k, m);
        m = rules[k].apply(after);
        let at = PAIR_BYTES * k;
        put_info(m, after, &mut out[at..at + PAIR_BYTES]);
    }
}
