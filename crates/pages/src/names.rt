// What instructions are called: the names of kinds, operations, constants and props, in the order of their numbers. Assumes nothing.
ghost use Rattle.std.specs.Prelude.{◌≡◌};
ghost use Rattle.pages.specs.Words.{word};
ghost use Rattle.pages.specs.Code.{verbs, names};

use crate::words::word;
use stackless_bytecode::{Bytecode, Kind};

const VERBS: [&[u8]; 12] = [
    b"",
    b"call ",
    b"ret",
    b"load ",
    b"branch",
    b"jump",
    b"label",
    b"abort",
    b"nop",
    b"savemem",
    b"savespecvar",
    b"prop ",
];

const ASSIGNS: [&[u8]; 3] = [b"copy", b"move", b"store"];

// The enum `Operation`.
const OPERATIONS: [&[u8]; 55] = [
    b"Function",
    b"OpaqueCallBegin",
    b"OpaqueCallEnd",
    b"Pack",
    b"Unpack",
    b"MoveTo",
    b"MoveFrom",
    b"Exists",
    b"BorrowLoc",
    b"BorrowField",
    b"BorrowGlobal",
    b"GetField",
    b"GetGlobal",
    b"Destroy",
    b"ReadRef",
    b"WriteRef",
    b"FreezeRef",
    b"Havoc",
    b"Stop",
    b"IsParent",
    b"WriteBack",
    b"UnpackRef",
    b"PackRef",
    b"UnpackRefDeep",
    b"PackRefDeep",
    b"CastU8",
    b"CastU64",
    b"CastU128",
    b"Not",
    b"Add",
    b"Sub",
    b"Mul",
    b"Div",
    b"Mod",
    b"BitOr",
    b"BitAnd",
    b"Xor",
    b"Shl",
    b"Shr",
    b"Lt",
    b"Gt",
    b"Le",
    b"Ge",
    b"Or",
    b"And",
    b"Eq",
    b"Neq",
    b"CastU256",
    b"TraceLocal",
    b"TraceReturn",
    b"TraceAbort",
    b"TraceExp",
    b"TraceGlobalMem",
    b"EmitEvent",
    b"EventStoreDiverge",
];

// The enum `Constant`.
const CONSTANTS: [&[u8]; 7] = [
    b"Bool",
    b"U8",
    b"U64",
    b"U128",
    b"U256",
    b"Address",
    b"ByteArray",
];

const PROPS: [&[u8]; 3] = [b"Assert", b"Assume", b"Modifies"];

// What an instruction of this kind begins with; an Assign has only its name. By number: a byte that is no kind has a word too, the empty one.
pub fn verb(kind: u8) -> &'static [u8]
    ensures { result.now ≡ word kind verbs }
{
    word(&VERBS, usize::from(kind))
}

// The name of an instruction's sub: of an Assign, a Call, a Load and a Prop. By the kind's number, as verb.
#[tactic(auto, unfolding(crate::specs::Code::names))]
pub fn name(r: Bytecode) -> &'static [u8]
    ensures { result.now ≡ word r.sub (names r.kind) }
{
    let sub = usize::from(r.sub);
    if r.is(Kind::Assign) {
        word(&ASSIGNS, sub)
    } else if r.is(Kind::Call) {
        word(&OPERATIONS, sub)
    } else if r.is(Kind::Load) {
        word(&CONSTANTS, sub)
    } else if r.is(Kind::Prop) {
        word(&PROPS, sub)
    } else {
        b""
    }
}
