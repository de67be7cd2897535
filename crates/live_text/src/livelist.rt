// The call livelist: what the program livelist prints for a sheet. Assumes nothing.
ghost use Rattle.std.specs.Prelude.{◌≡◌, ◌≤◌, length};
ghost use Rattle.base.specs.Refusals.{answer_of, output_after};
ghost use Rattle.listing.specs.Lines.{livelist, livelist_reply};
ghost use Rattle.listing.specs.Output.{Wrote};
ghost use Rattle.listing.specs.Writer.{◌with_text◌};

use base::{LIVE_BYTES, MAX_INSTRUCTIONS, Refusal, SET_BYTES, SLOTS};
use listing::text::{Hex, put_live, put_refused};
use listing::writer::Writer;
use live::analysis::analyze;
use sheet_checks::check::read;

// A line: four digits of the offset, two sets, three bytes between and behind.
const LINE_BYTES: usize = 4 + 4 * SET_BYTES + 3;

// The last line: "taken ", ten digits, and its end.
const TAKEN_BYTES: usize = 17;

// Room for the longest text.
pub const TEXT_BYTES: usize = MAX_INSTRUCTIONS * LINE_BYTES + TAKEN_BYTES;

// The text for any bytes.
fn put_text(s: &[u8], out: &mut Writer)
    ensures { out.new ≡ out.old with_text livelist s.now }
{
    let mut targets = [0u16; SLOTS];
    match read(s, &mut targets) {
        Err(refusal) => put_refused(refusal, out),
        Ok(sheet) => {
            let mut sets = [0u8; LIVE_BYTES];
            let taken = analyze(sheet, &mut sets);
            put_live::<Hex>(&sets, sheet.count, taken, out);
        }
    }
}

// The text for any bytes, as far as `out` goes; the result is the place behind it.
// As put_page and page of the crate page: three lines each, over the text and the room of another crate.
pub fn put_livelist(s: &[u8], out: &mut [u8]) -> usize
    ensures written { Wrote out.old 0 (livelist s.now) out.new result }
    ensures inside { result ≤ length out.new }
{
    let mut writer = Writer::new(out);
    put_text(s, &mut writer);
    writer.next
}

// The text for any bytes at the front of `out`, and its length: of a refused sheet, the line that says so.
pub fn livelist(s: &[u8], out: &mut [u8]) -> Result<u32, Refusal>
    ensures result { result ≡ answer_of (livelist_reply s.now (length out.old)) }
    ensures written { out.new ≡ output_after (livelist_reply s.now (length out.old)) out.old }
{
    if out.len() < TEXT_BYTES {
        return Err(Refusal::OutputShort);
    }
    Ok(put_livelist(s, out) as u32)
}
