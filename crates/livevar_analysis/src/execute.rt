// Rules applied to a set: those of a block from its end to its start. Assumes nothing.
ghost use Rattle.std.specs.Prelude.{◌≡◌, List, suc, ◌-◌, ◌<◌, length, take, drop};
ghost use Rattle.dataflow_domains.specs.Sets.{mask};
ghost use Rattle.stackless_bytecode.specs.declared.Bytecode.{Bytecode};
ghost use Rattle.livevar_analysis.specs.Analysis.{execute_all};
ghost use Rattle.livevar_analysis.specs.Rules.{Ruled};

use crate::rules::Rule;
use dataflow_domains::LiveVarState;

// The set before the instructions from `lower` to `upper`, from the set m after them.
pub fn execute_block(rules: &[Rule], lower: usize, upper: usize, m: LiveVarState) -> LiveVarState
    requires { upper < length rules.now }
    ensures { (code : List Bytecode) → Ruled code rules.now → upper < length code → mask result ≡ execute_all (take (suc upper - lower) (drop lower code)) (mask m) }
{
    let mut set = m;
    for k in (lower..upper + 1).rev() {
        set = rules[k].apply(set);
    }
    set
}
