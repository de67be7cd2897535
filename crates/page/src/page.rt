// The page of any bytes, and the call that writes it. Assumes nothing.
ghost use Rattle.std.specs.Prelude.{◌≡◌, ◌≤◌, length};
ghost use Rattle.base.specs.Refusals.{answer_of, output_after};
ghost use Rattle.listing.specs.Output.{Wrote};
ghost use Rattle.listing.specs.Writer.{◌with_text◌};
ghost use Rattle.pages.specs.Page.{sections, page, page_reply};

use crate::sections::{
    put_code_section, put_flow_section, put_live_section, put_rewritten_section,
};
use base::{LIST_PLACES, LIVE_BYTES, MAX_INSTRUCTIONS, MAX_LOCALS, Refusal, SET_BYTES, SLOTS};
use listing::text::put_refused;
use listing::writer::Writer;
use live::analysis::analyze;
use livevar_transform::plan::LiveSheet;
use sheet::accepted::ResolvedSheet;
use sheet_checks::check::read;

// The digits of an offset, a count, a label or an attribute id; of a payload; and of a local: two to 100 locals, three to 356.
const NUMBER: usize = 5;

const PAYLOAD: usize = 10;

const LOCAL: usize = 2 + (MAX_LOCALS + 155) / 256;

// The locals of a set, " t" before each.
const LOCALS_BYTES: usize = MAX_LOCALS * (2 + LOCAL);

// A sheet's code: the heading, and a line for each instruction, with two full lists.
const HEADING_BYTES: usize = 37 + 3 * NUMBER + LOCALS_BYTES;

const CODE_LINE_BYTES: usize = 60 + 6 * NUMBER + PAYLOAD + 2 * LIST_PLACES * (2 + LOCAL);

const CODE_BYTES: usize = HEADING_BYTES + MAX_INSTRUCTIONS * CODE_LINE_BYTES;

// The Labels that nobody names, " L" before each.
const UNNAMED_BYTES: usize = 12 + MAX_INSTRUCTIONS * (2 + NUMBER);

// The blocks: a line for each, how many there are, and those Labels.
const FLOW_BYTES: usize = MAX_INSTRUCTIONS * (24 + 6 * NUMBER) + 8 + NUMBER + UNNAMED_BYTES;

// The live sets: a line of two sets for each instruction, and the count of blocks taken.
const LIVE_TEXT_BYTES: usize = MAX_INSTRUCTIONS
    * (16 + NUMBER + 2 * (1 + 2 * SET_BYTES + LOCALS_BYTES))
    + 7
    + PAYLOAD;

// Room for the longest section, with its title; and for the longest page.
pub const SECTION_BYTES: usize = 11 + LIVE_TEXT_BYTES;

pub const PAGE_BYTES: usize = 28 + 2 * CODE_BYTES + FLOW_BYTES + LIVE_TEXT_BYTES;

// The sections of a sheet.
fn put_sections(sheet: ResolvedSheet<'_>, out: &mut Writer)
    ensures { out.new ≡ out.old with_text sections sheet.entry.bytes.now }
{
    let mut sets = [0u8; LIVE_BYTES];
    let taken = analyze(sheet, &mut sets);
    put_code_section(sheet.accepted(), out);
    put_flow_section(sheet, out);
    put_live_section(&sets, sheet.count, taken, out);
    put_rewritten_section(LiveSheet { sheet, info: &sets }, out);
}

// The page of any bytes.
fn put_bytes_page(s: &[u8], out: &mut Writer)
    ensures { out.new ≡ out.old with_text page s.now }
{
    let mut targets = [0u16; SLOTS];
    match read(s, &mut targets) {
        Ok(sheet) => put_sections(sheet, out),
        Err(refusal) => put_refused(refusal, out),
    }
}

// The page of any bytes, as far as `out` goes; the result is the place behind it.
// As put_livelist and livelist of the crate live_text: three lines each, over the text and the room of another crate.
pub fn put_page(s: &[u8], out: &mut [u8]) -> usize
    ensures written { Wrote out.old 0 (page s.now) out.new result }
    ensures inside { result ≤ length out.new }
{
    let mut writer = Writer::new(out);
    put_bytes_page(s, &mut writer);
    writer.next
}

// The page of any bytes at the front of `out`, and its length: of a refused sheet, the line that says so.
pub fn page(s: &[u8], out: &mut [u8]) -> Result<u32, Refusal>
    ensures result { result ≡ answer_of (page_reply s.now (length out.old)) }
    ensures written { out.new ≡ output_after (page_reply s.now (length out.old)) out.old }
{
    if out.len() < PAGE_BYTES {
        return Err(Refusal::OutputShort);
    }
    Ok(put_page(s, out) as u32)
}
