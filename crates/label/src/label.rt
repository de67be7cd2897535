// The call label: the Label with a number, and whether some instruction names it. Assumes nothing.
ghost use Rattle.std.specs.Prelude.{◌≡◌, not, ◌<◌, ◌≤◌, IfSome, IfOk};
ghost use Rattle.base.specs.Sizes.{max_instructions};
ghost use Rattle.base.specs.Lists.{has};
ghost use Rattle.base.specs.Refusals.{answer_of};
ghost use Rattle.stackless_bytecode.specs.Kinds.{branch_dests, label_of};
ghost use Rattle.stackless_bytecode.specs.Labels.{lookup, offset_of};
ghost use Rattle.sheet.specs.Layout.{code_of};
ghost use Rattle.label.specs.LabelCall.{label_value, label_reply, LabelMeaning};
ghost use Rattle.label.specs.Searches.{first_label, first_name};

use base::{Refusal, SLOTS};
use sheet::reader::decode;
use sheet::search::{RecordTest, first_failing};
use sheet::shaped::ShapedSheet;
use sheet_checks::check::read;
use stackless_bytecode::Lookup;

// The way stands above the offset.
const WAY: u32 = 65536;

// A record that is not the Label with this number.
#[derive(Clone, Copy)]
struct OtherThan {
    label: u32,
}

impl RecordTest for OtherThan {
    ghost test = { λ t r. not (has t.label (label_of r)) };

    #[tactic(auto, unfolding(stackless_bytecode::specs::Kinds::label_of))]
    fn holds(&self, bytes: &[u8]) -> bool {
        let r = decode(bytes);
        !(r.is_label() && self.label == u32::from(r.one))
    }
}

// A record that does not name this label.
#[derive(Clone, Copy)]
struct NamesNone {
    label: u32,
}

impl RecordTest for NamesNone {
    ghost test = { λ t r. not (has t.label (branch_dests r)) };

    #[tactic(auto, unfolding(stackless_bytecode::specs::Kinds::branch_dests))]
    fn holds(&self, bytes: &[u8]) -> bool {
        let r = decode(bytes);
        let names = |i| r.name(i).is_some_and(|l| self.label == u32::from(l));
        !names(0) && !names(1)
    }
}

// The first Label with this number.
#[tactic(auto, unfolding(crate::specs::Searches::first_label))]
fn find_label(sheet: ShapedSheet<'_>, label: u32) -> Option<usize>
    ensures first { result ≡ first_label (code_of sheet.entry.bytes.now) label }
    ensures within { IfSome result (λ k. k < sheet.entry.count) }
{
    first_failing(&OtherThan { label }, sheet)
}

// The first instruction that names this label.
#[tactic(auto, unfolding(crate::specs::Searches::first_name))]
fn find_name(sheet: ShapedSheet<'_>, label: u32) -> Option<usize>
    ensures { result ≡ first_name (code_of sheet.entry.bytes.now) label }
{
    first_failing(&NamesNone { label }, sheet)
}

// What a label is in the code of a sheet.
#[tactic(auto, using(crate::specs::LabelLaws::lookup_searched))]
fn look_up(sheet: ShapedSheet<'_>, label: u32) -> Lookup
    ensures lookup { result ≡ lookup (code_of sheet.entry.bytes.now) label }
    ensures few { offset_of result ≤ max_instructions }
{
    let Some(o) = find_label(sheet, label) else {
        return Lookup::Undefined;
    };
    match find_name(sheet, label) {
        Some(_) => Lookup::Named(o),
        None => Lookup::Unnamed(o),
    }
}

// The answer as the one number that C is given.
#[tactic(auto, unfolding(crate::specs::LabelCall::label_value))]
fn value_of(x: Lookup) -> u32
    requires { offset_of x ≤ max_instructions }
    ensures { result ≡ label_value x }
{
    match x {
        Lookup::Named(o) => WAY + o as u32,
        Lookup::Unnamed(o) => 2 * WAY + o as u32,
        Lookup::Undefined => 3 * WAY,
    }
}

// The label call: 65,536 times the way, and the offset: way 1 named, 2 defined and never named, 3 undefined. Its last clause: what that says of the code.
#[tactic(auto, using(crate::specs::LabelLaws::label_meaning), unfolding(crate::specs::LabelCall::label_reply))]
pub fn label(sheet: &[u8], label: u32) -> Result<u32, Refusal>
    ensures result { result ≡ answer_of (label_reply sheet.now label) }
    ensures means { IfOk result (λ value. LabelMeaning (code_of sheet.now) label value) }
{
    let mut targets = [0; SLOTS];
    let accepted = read(sheet, &mut targets)?.accepted();
    Ok(value_of(look_up(accepted.shaped(), label)))
}
