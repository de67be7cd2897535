// The live rule of each instruction, decoded once a call into a slice. Assumes nothing.
ghost use Rattle.std.specs.Prelude.{◌≡◌, cond, true, ℕ, ◌^◌, ◌<◌, ◌≤◌, get_or, length};
ghost use Rattle.base.specs.Sizes.{max_locals};
ghost use Rattle.dataflow_domains.specs.Mask.{set_of};
ghost use Rattle.stackless_bytecode.specs.Kinds.{is_flagged};
ghost use Rattle.dataflow_domains.specs.Sets.{mask};
ghost use Rattle.sheet.specs.Layout.{code_of};
ghost use Rattle.livevar_analysis.specs.Live.{execute};
ghost use Rattle.livevar_analysis.specs.Rules.{rule_by, InRange, Ruled};

use dataflow_domains::LiveVarState;
use sheet::accepted::AcceptedSheet;
use stackless_bytecode::Bytecode;

// What an instruction does to the set behind it: `kills` go out and `gens` come in; of an Assign only where the set has one of `kills`.
#[derive(Clone, Copy)]
pub struct Rule {
    pub kills: LiveVarState,
    pub gens: LiveVarState,
    pub assign: bool,
}

// The set of the locals of a list.
pub fn set_of(list: &[u8]) -> LiveVarState
    requires { (i : ℕ) → i < length list.now → get_or list.now i 0 < max_locals }
    ensures { mask result ≡ set_of list.now }
{
    let mut set = LiveVarState::empty();
    for &local in list {
        set = set.insert(local);
    }
    set
}

// The set of the abort local, where there is one.
fn gone(r: Bytecode) -> LiveVarState
    requires { is_flagged r ≡ true → r.abort < max_locals }
    ensures { mask result ≡ cond (is_flagged r) (2 ^ r.abort) 0 }
{
    match r.abort_local() {
        Some(local) => LiveVarState::single(local),
        None => LiveVarState::empty(),
    }
}

// A Call: destinations out, sources in, and then the abort local out where it is flagged.
fn call_rule(r: Bytecode) -> Rule
    requires in_range { InRange r }
    requires call { r.kind ≡ 1 }
    ensures { (m : ℕ) → rule_by result m ≡ execute r m }
{
    let out = set_of(r.destinations());
    let into = set_of(r.sources());
    let last = gone(r);
    Rule {
        kills: out.union(last),
        gens: into.without(last),
        assign: false,
    }
}

impl Rule {
    // Nothing goes out and nothing comes in.
    pub fn none() -> Rule
        ensures { (m : ℕ) → rule_by result m ≡ m }
    {
        Rule {
            kills: LiveVarState::empty(),
            gens: LiveVarState::empty(),
            assign: false,
        }
    }

    // The set before the instruction, from the set m after it.
    pub fn apply(self, m: LiveVarState) -> LiveVarState
        ensures { mask result ≡ rule_by self (mask m) }
    {
        let rest = m.without(self.kills);
        if self.assign && rest.same(m) {
            return m;
        }
        self.gens.union(rest)
    }
}

// The rule of an instruction, by its kind: the paper's table decides by these numbers.
pub fn rule_of(r: Bytecode) -> Rule
    requires { InRange r }
    ensures { (m : ℕ) → rule_by result m ≡ execute r m }
{
    match r.kind {
        // Assign
        0 => Rule {
            kills: LiveVarState::single(r.dsts[0]),
            gens: set_of(r.sources()),
            assign: true,
        },
        // Call
        1 => call_rule(r),
        // Ret, Branch, Abort, Prop
        2 | 4 | 7 | 11 => Rule {
            kills: LiveVarState::empty(),
            gens: set_of(r.sources()),
            assign: false,
        },
        // Load
        3 => Rule {
            kills: LiveVarState::single(r.dsts[0]),
            gens: LiveVarState::empty(),
            assign: false,
        },
        // Jump, Label
        5..=6 => Rule::none(),
        // Nop, SaveMem, SaveSpecVar
        8..=10 => Rule::none(),
        // no kind
        _ => Rule::none(),
    }
}

// The rules of a sheet's instructions.
pub fn decode_rules(sheet: AcceptedSheet<'_>, rules: &mut [Rule])
    requires { sheet.count ≤ length rules.old }
    ensures { Ruled (code_of sheet.entry.bytes.now) rules.new }
{
    for k in 0..sheet.count {
        rules[k] = rule_of(sheet.instruction(k));
    }
}
