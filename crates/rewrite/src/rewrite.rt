// The call rewrite: refusals 10 and 11 before a byte is written, then the new sheet. Assumes nothing.
ghost use Rattle.std.specs.Prelude.{◌≡◌, ◌≤◌, length, map, take, true, OnOk, IfOk};
ghost use Rattle.base.specs.Sizes.{max_bytes, max_instructions};
ghost use Rattle.base.specs.Refusals.{answer_of, output_after};
ghost use Rattle.dataflow_domains.specs.Sets.{mask};
ghost use Rattle.sheet.specs.Layout.{heading_rest, code_of, sheet_of};
ghost use Rattle.sheet_writer.specs.Written.{SheetWritten};
ghost use Rattle.livevar_analysis.specs.Analysis.{infos_of};
ghost use Rattle.livevar_transform.specs.Rewrite.{sheet_info, rewrite_reply};
ghost use Rattle.livevar_transform.specs.RewriteAccepted.{AcceptedRewriting};
ghost use Rattle.livevar_transform.specs.Plan.{code_by};
ghost use Rattle.livevar_transform.specs.RewriteWork.{check_new, RewriteAnswers, fit_between};

use base::{LIVE_BYTES, MAX_BYTES, MAX_INSTRUCTIONS, MAX_NUMBER, REFS_AT, Refusal, SLOTS};
use dataflow_domains::LiveVarState;
use live::analysis::analyze;
use livevar_transform::plan::{Fate, LiveSheet, Next, count, first_numbers, set_in};
use sheet::accepted::ResolvedSheet;
use sheet_checks::check::read;
use sheet_writer::whole::{FLAT_BYTES, write_sheet};
use transform_code::write::{NumberedPlan, transform_code};

// No number was used up, or those behind are at most one above the highest.
fn numbers_fit(first: Next, last: Next) -> bool
    ensures { result ≡ fit_between first last }
{
    let top = MAX_NUMBER + 1;
    (first.attr == last.attr) | ((last.label <= top) & (last.attr <= top))
}

// Checks 10 and 11 of the new code: whether its numbers fit, and whether it is short enough.
#[tactic(auto, unfolding(base::specs::Refusals::check_whole))]
fn check_new(fits: bool, short: bool) -> Result<(), Refusal>
    ensures checked { result ≡ check_new fits short }
    ensures fits { OnOk result (fits ≡ true) }
    ensures short { OnOk result (short ≡ true) }
{
    if !fits {
        return Err(Refusal::NumberTooHigh);
    }
    if !short {
        return Err(Refusal::CodeTooLong);
    }
    Ok(())
}

// The new code by its plan, of m instructions, and the new sheet; its length.
fn write_new(numbered: NumberedPlan, m: usize, out: &mut [u8]) -> u32
    requires long { m ≡ length (code_by (code_of numbered.plan.sheet.bytes.now) numbered.plan.fates.now (map mask numbered.plan.lost.now) numbered.plan.sheet.count numbered.first) }
    requires few { m ≤ max_instructions }
    requires room { max_bytes ≤ length out.old }
    ensures { SheetWritten (sheet_of (heading_rest numbered.entry.plan.sheet.bytes.now) (code_by (code_of numbered.entry.plan.sheet.bytes.now) numbered.entry.plan.fates.now (map mask numbered.entry.plan.lost.now) numbered.entry.plan.sheet.count numbered.entry.first)) out.old result out.new }
{
    let mut flat = [0u8; FLAT_BYTES];
    transform_code(numbered, &mut flat);
    write_sheet(numbered.plan.sheet.bytes, m, &flat, out)
}

// Rewriting of an accepted sheet whose live sets are given.
pub fn rewrite_sheet(live: LiveSheet, out: &mut [u8]) -> Result<u32, Refusal>
    requires sets { infos_of live.sheet.count live.info.now ≡ sheet_info live.sheet.bytes.now }
    requires room { max_bytes ≤ length out.old }
    ensures { RewriteAnswers live.entry.sheet.bytes.now out.old result out.new }
{
    let refs = set_in(live.sheet.bytes, REFS_AT);
    let mut fates = [Fate::Kept; MAX_INSTRUCTIONS];
    let mut lost = [LiveVarState::empty(); SLOTS];
    let plan = live.plan(refs, &mut fates, &mut lost);
    let first = first_numbers(plan.sheet);
    let counts = count(plan.fates, plan.lost, plan.sheet.count, first);
    let last = counts.next;
    let m = counts.kept + (last.attr - first.attr) as usize;
    check_new(numbers_fit(first, last), m <= MAX_INSTRUCTIONS)?;
    Ok(write_new(NumberedPlan { plan, first }, m, out))
}

// Rewriting of an accepted sheet: its live sets, then the new code.
fn analyze_and_transform(sheet: ResolvedSheet, out: &mut [u8]) -> Result<u32, Refusal>
    requires { max_bytes ≤ length out.old }
    ensures { RewriteAnswers sheet.entry.bytes.now out.old result out.new }
{
    let mut info = [0u8; LIVE_BYTES];
    analyze(sheet, &mut info);
    rewrite_sheet(LiveSheet { sheet, info: &info }, out)
}

// The rewrite call: the new sheet at the front of `out`, and its length in bytes. Its last clause: the new sheet is accepted, and keeps the heading's other fields.
#[tactic(auto, unfolding(livevar_transform::specs::Rewrite::rewrite_reply))]
pub fn rewrite(bytes: &[u8], out: &mut [u8]) -> Result<u32, Refusal>
    ensures result { result ≡ answer_of (rewrite_reply bytes.now (length out.old)) }
    ensures written { out.new ≡ output_after (rewrite_reply bytes.now (length out.old)) out.old }
    ensures accepted { IfOk result (λ m. AcceptedRewriting bytes.now (take m out.new)) }
{
    let mut targets = [0u16; SLOTS];
    let sheet = read(bytes, &mut targets)?;
    if out.len() < MAX_BYTES {
        return Err(Refusal::OutputShort);
    }
    analyze_and_transform(sheet, out)
}
