// Numbers, lists and records into bytes. Assumes nothing.
ghost use Rattle.std.specs.Prelude.{◌≡◌, length};
ghost use Rattle.base.specs.Sizes.{list_places, record_bytes};
ghost use Rattle.base.specs.Bytes.{bytes_of};
ghost use Rattle.sheet.specs.Layout.{encode, padded};
ghost use Rattle.sheet_writer.specs.Written.{head_of};

use base::{LIST_PLACES, RECORD_BYTES};
use sheet::reader::{DSTS_AT, PAYLOAD_AT, SRCS_AT};
use stackless_bytecode::Bytecode;

// A number in two bytes, little-endian.
#[tactic(auto, using(base::specs::ByteLaws::le_bytes_2))]
pub fn put_u16(out: &mut [u8], x: u16)
    requires { length out.old ≡ 2 }
    ensures { out.new ≡ bytes_of 2 x }
{
    out.copy_from_slice(&u16::to_le_bytes(x));
}

// A number in four bytes, little-endian.
#[tactic(auto, using(base::specs::ByteLaws::le_bytes_4))]
pub fn put_u32(out: &mut [u8], x: u32)
    requires { length out.old ≡ 4 }
    ensures { out.new ≡ bytes_of 4 x }
{
    out.copy_from_slice(&u32::to_le_bytes(x));
}

// The places of a list.
#[tactic(auto, using(crate::specs::EncodeLaws::padded_full))]
pub fn put_places(out: &mut [u8], xs: [u8; LIST_PLACES])
    requires { length out.old ≡ list_places }
    ensures { out.new ≡ padded xs }
{
    out.copy_from_slice(&xs);
}

// The bytes of a record before its lists.
fn put_head(out: &mut [u8], r: Bytecode)
    requires { length out.old ≡ 12 }
    ensures { out.new ≡ head_of r }
{
    let [attr_low, attr_high] = r.attr.to_le_bytes();
    let [one_low, one_high] = r.one.to_le_bytes();
    let [two_low, two_high] = r.two.to_le_bytes();
    out.copy_from_slice(&[
        r.kind, r.sub, attr_low, attr_high, one_low, one_high, two_low, two_high, r.ndst, r.nsrc,
        r.flag, r.abort,
    ]);
}

// The bytes of an instruction's record.
pub fn encode(r: Bytecode, out: &mut [u8])
    requires { length out.old ≡ record_bytes }
    ensures { out.new ≡ encode r }
{
    put_head(&mut out[0..DSTS_AT], r);
    put_places(&mut out[DSTS_AT..SRCS_AT], r.dsts);
    put_places(&mut out[SRCS_AT..PAYLOAD_AT], r.srcs);
    put_u32(&mut out[PAYLOAD_AT..RECORD_BYTES], r.payload);
}
