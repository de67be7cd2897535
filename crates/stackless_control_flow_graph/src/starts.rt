// One pass over the instructions: the successors of each offset, and where blocks start. Assumes nothing.
ghost use Rattle.std.specs.Prelude.{◌≡◌, false, ◌∷◌, ℕ, ◌+◌, ◌≤◌, ◌<◌, length, get_or};
ghost use Rattle.stackless_control_flow_graph.specs.Arrays.{offsets_of, mark_all, Within, SuccessorsTo, Marked, Visits};
ghost use Rattle.sheet.specs.Code.{code_in};

use crate::Successors;
use crate::next::by_kind;
use sheet::accepted::ResolvedSheet;

// Blocks start at `next` and at these successors.
#[tactic(auto, unfolding(crate::specs::Arrays::mark_all))]
fn mark_starts(marks: &mut [bool], next: usize, e: Successors)
    requires behind { next < length marks.old }
    requires within { Within (length marks.old) (offsets_of e) }
    ensures { marks.new ≡ mark_all marks.old (next ∷ offsets_of e) }
{
    marks[next] = true;
    match e {
        Successors::None => {}
        Successors::One(a) => marks[usize::from(a)] = true,
        Successors::Two(a, b) => {
            marks[usize::from(a)] = true;
            marks[usize::from(b)] = true;
        }
    }
}

// The successors of offset k into their place, and the blocks that it starts.
fn visit(sheet: ResolvedSheet<'_>, k: usize, goes: &mut [Successors], marks: &mut [bool])
    requires inside { k < sheet.count }
    requires goes { sheet.count ≤ length goes.old }
    requires marks { sheet.count < length marks.old }
    ensures { Visits (code_in sheet.entry) k goes.old marks.old goes.new marks.new }
{
    let r = sheet.instruction(k);
    let next = k + 1;
    if !r.is_branch() {
        goes[k] = Successors::One(next as u16);
        return;
    }
    let at = 2 * k;
    let e = by_kind(r, sheet.targets[at], sheet.targets[at + 1], next as u16);
    goes[k] = e;
    mark_starts(marks, next, e);
}

// The successors of every offset, and marks where a block starts: at 0, at the successors of whatever branches, and behind it.
pub fn visit_all(sheet: ResolvedSheet<'_>, goes: &mut [Successors], marks: &mut [bool])
    requires goes { sheet.count ≤ length goes.old }
    requires marks { sheet.count < length marks.old }
    requires unmarked { (j : ℕ) → get_or marks.old j false ≡ false }
    ensures successors { SuccessorsTo (code_in sheet.entry) sheet.entry.count goes.new }
    ensures marked { Marked (code_in sheet.entry) marks.new }
{
    marks[0] = true;
    for k in 0..sheet.count {
        visit(sheet, k, goes, marks);
    }
}
