// The blocks of a flow table as text. Assumes nothing.
ghost use Rattle.std.specs.Prelude.{◌≡◌, ◌*◌, ◌≤◌, length};
ghost use Rattle.base.specs.Sizes.{row_numbers};
ghost use Rattle.listing.specs.Writer.{◌with_text◌};
ghost use Rattle.pages.specs.Page.{block_line, flow_text};

use base::ROW;
use listing::writer::Writer;
use pages::words::put_mark;

// The line of a block's row: its numbers by place, as the table lays them.
#[tactic(auto, using(listing::specs::WriterLaws::texts), unfolding(pages::specs::Page::block_line))]
fn put_block(row: &[u16], out: &mut Writer)
    requires { length row.now ≡ row_numbers }
    ensures { out.new ≡ out.old with_text block_line row.now }
{
    out.put_decimal(u32::from(row[0]));
    out.put_number(b" to ", u32::from(row[1]));
    out.put_number(b": key ", u32::from(row[2]));
    out.put(b", leads to");
    put_mark(b" ", u32::from(row[3]), out);
    put_mark(b" ", u32::from(row[4]), out);
    out.put(b"\n");
}

// A line for each of the m blocks of a flow table, and how many there are.
#[tactic(auto, using(listing::specs::WriterLaws::texts, pages::specs::SectionLaws::block_steps), unfolding(pages::specs::Page::flow_text))]
pub fn put_blocks(table: &[u16], m: u32, out: &mut Writer)
    requires { row_numbers * m ≤ length table.now }
    ensures { out.new ≡ out.old with_text flow_text m table.now }
{
    for row in table.chunks_exact(ROW).take(m as usize) {
        put_block(row, out);
    }
    out.put_number(b"blocks ", m);
    out.put(b"\n");
}
