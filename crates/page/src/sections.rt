// The four sections of an accepted sheet's page. Assumes nothing.
ghost use Rattle.std.specs.Prelude.{◌≡◌, ◌++◌, ◌*◌, ◌≤◌, length, codes};
ghost use Rattle.base.specs.Sizes.{pair_bytes, max_instructions, max_bytes};
ghost use Rattle.sheet.specs.Code.{code_in};
ghost use Rattle.stackless_control_flow_graph.specs.Blocks.{blocks_of, flow_table};
ghost use Rattle.livevar_analysis.specs.Analysis.{infos_of};
ghost use Rattle.livevar_transform.specs.Rewrite.{sheet_info, rewrite_reply};
ghost use Rattle.listing.specs.Writer.{◌with_text◌};
ghost use Rattle.pages.specs.Code.{code_text};
ghost use Rattle.pages.specs.Page.{flow_text, unnamed_line, live_text, rewritten_text};

use base::{MAX_BYTES, MAX_INSTRUCTIONS, ROW};
use flow_table::forward::table_of;
use listing::text::{put_live, put_refused};
use listing::writer::Writer;
use livevar_transform::plan::LiveSheet;
use page_tables::blocks::put_blocks;
use page_tables::labels::put_unnamed;
use page_tables::sets::HexAndLocals;
use pages::code::put_code;
use rewrite::rewrite::rewrite_sheet;
use sheet::accepted::{AcceptedSheet, ResolvedSheet};
use sheet::reader::count_of;

// The numbers of the most blocks.
const TABLE: usize = ROW * MAX_INSTRUCTIONS;

#[tactic(auto, using(listing::specs::WriterLaws::texts))]
pub fn put_code_section(sheet: AcceptedSheet<'_>, out: &mut Writer)
    ensures { out.new ≡ out.old with_text (codes "code\n" ++ code_text sheet.entry.bytes.now) }
{
    out.put(b"code\n");
    put_code(sheet, out);
}

// The blocks of a sheet, and the Labels that nobody names.
pub fn put_flow_section(sheet: ResolvedSheet<'_>, out: &mut Writer)
    ensures { out.new ≡ out.old with_text (codes "\nflow\n" ++ flow_text (blocks_of (code_in sheet.entry)) (flow_table (code_in sheet.entry)) ++ unnamed_line (code_in sheet.entry)) }
{
    let mut table = [0u16; TABLE];
    let m = table_of(sheet, &mut table);
    out.put(b"\nflow\n");
    put_blocks(&table, m as u32, out);
    put_unnamed(sheet, out);
}

// The live sets of n instructions, which are in `sets`.
#[tactic(auto, using(listing::specs::WriterLaws::texts), unfolding(pages::specs::Page::live_text))]
pub fn put_live_section(sets: &[u8], n: usize, taken: u32, out: &mut Writer)
    requires few { n ≤ max_instructions }
    requires room { pair_bytes * n ≤ length sets.now }
    ensures { out.new ≡ out.old with_text (codes "\nlive\n" ++ live_text (infos_of n sets.now) taken) }
{
    out.put(b"\nlive\n");
    put_live::<HexAndLocals>(sets, n, taken, out);
}

// The rewritten code of a sheet by its live sets, or refusal 10 or 11.
pub fn put_rewritten_section(live: LiveSheet<'_>, out: &mut Writer)
    requires { infos_of live.sheet.count live.info.now ≡ sheet_info live.sheet.bytes.now }
    ensures { out.new ≡ out.old with_text (codes "\nrewritten\n" ++ rewritten_text (rewrite_reply live.entry.sheet.bytes.now max_bytes)) }
{
    let mut new = [0u8; MAX_BYTES];
    out.put(b"\nrewritten\n");
    match rewrite_sheet(live, &mut new) {
        Ok(m) => {
            let bytes = &new[..m as usize];
            put_code(AcceptedSheet::new(bytes, usize::from(count_of(bytes))), out);
        }
        Err(refusal) => put_refused(refusal, out),
    }
}
