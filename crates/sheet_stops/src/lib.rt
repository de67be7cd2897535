// Check 18: a Stop has no abort action. Assumes nothing.
#![tactic(auto)]

ghost use Rattle.std.specs.Prelude.{◌≡◌, ◌<◌, IfSome};
ghost use Rattle.base.specs.Lists.{first_bad};
ghost use Rattle.stackless_bytecode.specs.Kinds.{at, stop_ok};
ghost use Rattle.sheet.specs.Layout.{code_of};

use sheet::reader::decode;
use sheet::search::{RecordTest, first_failing};
use sheet::shaped::ShapedSheet;
use stackless_bytecode::is_stop;

// A record that is no Stop with an abort action. Only where its operation is Stop is more of it read.
struct UnflaggedStop;

impl RecordTest for UnflaggedStop {
    ghost test = { λ _ r. stop_ok r };

    #[tactic(auto, unfolding(stackless_bytecode::specs::Kinds::stop_ok, sheet::specs::Layout::decode))]
    fn holds(&self, bytes: &[u8]) -> bool {
        !is_stop(bytes[1]) || !decode(bytes).is_flagged()
    }
}

// The first Stop with an abort action.
pub fn first_bad_stop(sheet: ShapedSheet<'_>) -> Option<usize>
    ensures first { result ≡ first_bad sheet.entry.count 0 (λ k. stop_ok (at (code_of sheet.entry.bytes.now) k)) }
    ensures within { IfSome result (λ k. k < sheet.entry.count) }
{
    first_failing(&UnflaggedStop, sheet)
}
