// Check 5: every listed local, and the abort local of a flagged Call, is below the heading's count. Assumes nothing.
ghost use Rattle.std.specs.Prelude.{◌≡◌, ◌<◌, ltb, IfSome};
ghost use Rattle.base.specs.Lists.{all, first_bad};
ghost use Rattle.stackless_bytecode.specs.Kinds.{at};
ghost use Rattle.sheet.specs.Layout.{code_of};
ghost use Rattle.sheet.specs.Checks.{locals_ok};
ghost use Rattle.sheet.specs.Shaped.{Lists};

use sheet::reader::decode;
use sheet::search::{RecordTest, first_failing};
use sheet::shaped::ShapedSheet;
use stackless_bytecode::Bytecode;

// Whether each is below n. A `for`: with `all` check 5 took a quarter longer.
fn all_below(xs: &[u8], n: usize) -> bool
    ensures { result ≡ all (λ x. ltb x n) xs.now }
{
    for &x in xs {
        if n <= usize::from(x) {
            return false;
        }
    }
    true
}

// Whether the locals of one instruction are below n.
#[tactic(auto, using(crate::specs::LocalLaws::locals_ok_lem))]
pub fn locals_ok(r: Bytecode, n: usize) -> bool
    requires { Lists r }
    ensures { result ≡ locals_ok n r }
{
    all_below(&r.dsts[..usize::from(r.ndst)], n)
        && all_below(&r.srcs[..usize::from(r.nsrc)], n)
        && (!r.is_flagged() || usize::from(r.abort) < n)
}

// The locals of a record are below the count.
#[derive(Clone, Copy)]
struct LocalsBelow {
    count: usize,
}

impl RecordTest for LocalsBelow {
    ghost test = { λ t r. locals_ok t.count r };

    fn holds(&self, bytes: &[u8]) -> bool {
        locals_ok(decode(bytes), self.count)
    }
}

// The first instruction with a local that is not below the count.
pub fn first_bad_local(sheet: ShapedSheet<'_>, locals: usize) -> Option<usize>
    ensures first { result ≡ first_bad sheet.entry.count 0 (λ k. locals_ok locals (at (code_of sheet.entry.bytes.now) k)) }
    ensures within { IfSome result (λ k. k < sheet.entry.count) }
{
    first_failing(&LocalsBelow { count: locals }, sheet)
}
