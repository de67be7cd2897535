// Instructions that rewriting makes or changes. Assumes nothing.
ghost use Rattle.std.specs.Prelude.{◌≡◌, [], ◌∷◌};
ghost use Rattle.stackless_bytecode.specs.Kinds.{Call, Destroy, kind_number};
ghost use Rattle.livevar_transform.specs.Rewrite.{made, aimed, into};

use base::LIST_PLACES;
use stackless_bytecode::{Bytecode, DESTROY, Kind};

// r with other labels.
pub fn with_labels(r: Bytecode, one: u16, two: u16) -> Bytecode
    ensures { result ≡ aimed r one two }
{
    Bytecode { one, two, ..r }
}

// r with another list of destinations.
pub fn with_dsts(r: Bytecode, dsts: [u8; LIST_PLACES]) -> Bytecode
    ensures { result ≡ into r dsts }
{
    Bytecode { dsts, ..r }
}

// A new Label or Jump; `kind` is any number, as the record has one.
#[tactic(auto, unfolding(sheet::specs::Layout::padded))]
pub fn mark(kind: u8, attr: u16, one: u16) -> Bytecode
    ensures { result ≡ made kind 0 attr one [] }
{
    Bytecode {
        kind,
        sub: 0,
        attr,
        one,
        two: 0,
        ndst: 0,
        nsrc: 0,
        flag: 0,
        abort: 0,
        dsts: [0; LIST_PLACES],
        srcs: [0; LIST_PLACES],
        payload: 0,
    }
}

// A new Destroy.
#[tactic(auto, unfolding(sheet::specs::Layout::padded))]
pub fn destroy(attr: u16, local: u8) -> Bytecode
    ensures { result ≡ made Call Destroy attr 0 (local ∷ []) }
{
    let mut srcs = [0; LIST_PLACES];
    srcs[0] = local;
    Bytecode {
        sub: DESTROY,
        nsrc: 1,
        srcs,
        ..mark(Kind::Call as u8, attr, 0)
    }
}
