// Reads a day file from standard input and prints its settlement sheet, once the whole file is judged.
#![tactic(auto)]

mod input;

use dayfile::DayFile;
use input::read_file;
use report::SHEET_SIZE;
use std::io;
use std::process::ExitCode;

// No day file has more bytes. Of a longer input the rest is not read.
const INPUT_SIZE: usize = 65_536;

fn print_sheet(rt: &impl Print, file: &[u8]) -> io::Result<()> {
    // No heap, here and for the input: a place for all that a file may have.
    let mut amounts = [0i64; DayFile::MAX_POSITIONS];
    let mut out = [0u8; SHEET_SIZE];
    let n = report::sheet(file, &mut amounts, &mut out);
    rt.write_all(&out[..n])
}

// Says on standard error what failed.
fn failed(rt: &impl Eprint, what: &str) -> ExitCode {
    let _ = eprintln!(rt; "sheet: {what}");
    ExitCode::FAILURE
}

fn main(rt: HostRuntime) -> ExitCode {
    let mut file = [0u8; INPUT_SIZE];
    let Ok(n) = read_file(&mut rt.stdin(), &mut file) else {
        return failed(&rt, "standard input cannot be read");
    };
    match print_sheet(&rt, &file[..n]) {
        Ok(()) => ExitCode::SUCCESS,
        Err(_) => failed(&rt, "standard output cannot be written"),
    }
}
