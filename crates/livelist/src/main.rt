// livelist: reads a sheet on standard input, and prints its live sets and how many blocks were taken, or the refusal.
#![tactic(auto)]

use base::READ_BYTES;
use live_text::livelist::{TEXT_BYTES, put_livelist};
use streams::read_input;

// Prints the text of a sheet.
fn print<R: Print + Eprint>(rt: &R, sheet: &[u8]) {
    let mut text = [0u8; TEXT_BYTES];
    let m = put_livelist(sheet, &mut text);
    if rt.write_all(&text[..m]).is_err() {
        let _ = rt.eprint("livelist: standard output cannot be written\n");
    }
}

fn main(rt: HostRuntime) {
    let mut sheet = [0u8; READ_BYTES];
    match read_input(&mut rt.stdin(), &mut sheet) {
        Ok(n) => print(&rt, &sheet[..n]),
        Err(_) => {
            let _ = rt.eprint("livelist: standard input cannot be read\n");
        }
    }
}
