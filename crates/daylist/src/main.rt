// The day list as a program: a sheet from standard input, the list to standard output. A read or a write that fails is
// said on standard error; after a failed read nothing is printed. Follows docs/RULES.md, "The board and the day list"
// (R 256, A 1,024, b 4, P 2). What it prints is the library's: day_of_input says it. No contract says that the bytes
// which are read are the sheet, or that those printed are written: that is the system's, and this file's.
#![tactic(auto)]

use day_input::read_whole;
use day_of_input::{SHEET_BYTES, day_list_of_input};
use day_of_two::OUT_BYTES;
use std::io::Write;

// Writes all of some bytes, and says whether that was done.
fn written<W: Write>(to: &mut W, bytes: &[u8]) -> bool {
    to.write_all(bytes).is_ok()
}

// Writes the bytes that were printed.
fn show<W: Write, E: Write>(to: &mut W, errors: &mut E, out: &[u8], bytes: usize) {
    if bytes <= out.len() && !written(to, &out[..bytes]) {
        written(errors, b"daylist: the list cannot be written\n");
    }
}

fn main(rt: HostRuntime) {
    let mut errors = rt.stderr();
    let mut sheet = [0u8; SHEET_BYTES];
    let Ok(read) = read_whole(&mut rt.stdin(), &mut sheet) else {
        written(&mut errors, b"daylist: the sheet cannot be read\n");
        return;
    };
    let mut out = [0u8; OUT_BYTES];
    let bytes = day_list_of_input(&sheet, read, &mut out);
    show(&mut rt.stdout(), &mut errors, &out, bytes);
}
