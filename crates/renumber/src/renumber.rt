// The call renumber: refusal 15 before a byte is written, then the new sheet. Assumes nothing.
ghost use Rattle.std.specs.Prelude.{◌≡◌, not, ◌≤◌, length, take, IfOk, OnOk};
ghost use Rattle.base.specs.Sizes.{block_bytes};
ghost use Rattle.base.specs.Lists.{first_bad};
ghost use Rattle.base.specs.Refusals.{check, lends, answer_of, output_after};
ghost use Rattle.stackless_bytecode.specs.Kinds.{at};
ghost use Rattle.sheet.specs.Layout.{code_of, heading_rest};
ghost use Rattle.sheet_writer.specs.Written.{SheetWritten};
ghost use Rattle.eliminate_unused_vars.specs.Renumber.{hides_local, check_open, staying_in, renumbered_rest, renumbered_sheet, renumber_reply};
ghost use Rattle.eliminate_unused_vars.specs.Renumbered.{Renumbered};

use crate::heading::{put_heading, remap_set};
use base::{BLOCK_BYTES, REFS_AT, REFS_END, Refusal, SLOTS};
use dataflow_domains::LiveVarState;
use eliminate_unused_vars::names::Names;
use eliminate_unused_vars::remap::remap_code;
use sheet::accepted::AcceptedSheet;
use sheet::reader::decode;
use sheet::search::{RecordTest, first_failing};
use sheet_checks::check::read;
use sheet_writer::whole::{FLAT_BYTES, write_sheet};
use stackless_bytecode::{IS_PARENT, Kind, WRITE_BACK};

// A record whose payload hides no local: no IsParent and no WriteBack.
struct HidesNone;

impl RecordTest for HidesNone {
    ghost test = { λ _ r. not (hides_local r) };

    #[tactic(auto, unfolding(eliminate_unused_vars::specs::Renumber::hides_local))]
    fn holds(&self, bytes: &[u8]) -> bool {
        let r = decode(bytes);
        !(r.is(Kind::Call) && matches!(r.sub, IS_PARENT | WRITE_BACK))
    }
}

// 15: an instruction hides a local.
fn check_hidden(sheet: AcceptedSheet<'_>) -> Result<(), Refusal>
    ensures { result ≡ check Refusal.LocalHidden (first_bad sheet.entry.count 0 (λ k. not (hides_local (at (code_of sheet.entry.bytes.now) k)))) }
{
    match first_failing(&HidesNone, sheet.shaped()) {
        Some(k) => Err(Refusal::LocalHidden(k as u16)),
        None => Ok(()),
    }
}

// 9: fewer bytes are lent than the sheet has.
fn check_lent(sheet: AcceptedSheet<'_>, lent: usize) -> Result<(), Refusal>
    ensures { result ≡ lends lent (length sheet.entry.bytes.now) }
{
    if lent < sheet.bytes.len() {
        return Err(Refusal::OutputShort);
    }
    Ok(())
}

// 15, then 9.
fn check_open(sheet: AcceptedSheet<'_>, lent: usize) -> Result<(), Refusal>
    ensures checked { result ≡ check_open sheet.entry.bytes.now lent }
    ensures enough { OnOk result (length sheet.entry.bytes.now ≤ lent) }
{
    check_hidden(sheet)?;
    check_lent(sheet, lent)
}

// The new heading: the number of locals that stay, and the references among them.
#[tactic(auto, using(eliminate_unused_vars::specs::RenumberWorkLaws::rest_is))]
fn new_heading(sheet: AcceptedSheet<'_>, names: &Names, head: &mut [u8])
    requires stay { names.now ≡ staying_in sheet.bytes.now }
    requires head { length head.old ≡ block_bytes }
    ensures { heading_rest head.new ≡ renumbered_rest sheet.entry.bytes.now }
{
    let refs = LiveVarState::load_bytes(&sheet.bytes[REFS_AT..REFS_END]);
    let order = names.locals();
    put_heading(sheet.bytes, order.len(), remap_set(refs, order), head);
}

// The new sheet at the front of `out`; its length.
#[tactic(auto, using(sheet_writer::specs::SheetLaws::few_blocks))]
fn eliminate_unused_vars(sheet: AcceptedSheet<'_>, out: &mut [u8]) -> u32
    requires { length sheet.bytes.now ≤ length out.old }
    ensures { SheetWritten (renumbered_sheet sheet.entry.bytes.now) out.old result out.new }
{
    let names = Names::of(sheet);
    let mut flat = [0; FLAT_BYTES];
    remap_code(sheet, &names, &mut flat);
    let mut head = [0; BLOCK_BYTES];
    new_heading(sheet, &names, &mut head);
    write_sheet(&head, sheet.count, &flat, out)
}

// The renumber call: the new sheet at the front of `out`, and its length in bytes. Its last clause: what a renumbered sheet is.
#[tactic(auto, unfolding(eliminate_unused_vars::specs::Renumber::renumber_reply))]
pub fn renumber(sheet: &[u8], out: &mut [u8]) -> Result<u32, Refusal>
    ensures result { result ≡ answer_of (renumber_reply sheet.now (length out.old)) }
    ensures written { out.new ≡ output_after (renumber_reply sheet.now (length out.old)) out.old }
    ensures renumbered { IfOk result (λ n. Renumbered sheet.now (take n out.new)) }
{
    let mut targets = [0; SLOTS];
    let accepted = read(sheet, &mut targets)?.accepted();
    check_open(accepted, out.len())?;
    Ok(eliminate_unused_vars(accepted, out))
}
