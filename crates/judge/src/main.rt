// The program behind ./judge: reads a list on standard input and, unless the list is refused, a sheet on descriptor 3, and writes the verdict.
// All that it writes is built by `expect_sheet` and `verdict_line`.
#![tactic(auto)]

mod output;

ghost use Rattle.streams.specs.Input.{Held};

use listing::listing::ROOM;
use output::{LINE, expect_sheet, verdict_line};
use std::fs::File;
use std::io::Print;
use std::os::unix::fs::PermissionsExt;
use std::rt::Files;
use std::{fs, io};
use streams::reading::{MAX_LIST, read_from, read_list};
use streams::writing::{complain, write_output};

// std reaches a descriptor by its name alone: the file or the pipe that it stands for is opened once more, and read from its beginning.
const SHEET: &str = "/proc/self/fd/3";

// The bit of a descriptor's link that says that the descriptor may be read.
const MAY_READ: u32 = 0o400;

// A descriptor for writing alone is none to read from, though its file could be.
fn open_sheet<R: Files>(files: &R) -> io::Result<R::File> {
    let link = fs::symlink_metadata(files, SHEET)?;
    if link.permissions().mode() & MAY_READ == 0 {
        return Err(io::Error::from(io::ErrorKind::PermissionDenied));
    }
    File::open(files, SHEET)
}

// A sheet that cannot be opened, as where the descriptor is closed, counts as one whose read failed.
fn read_sheet<R: Files>(files: &R, sheet: &mut [u8]) -> io::Result<usize>
    ensures { Held result sheet.new }
{
    let mut file = open_sheet(files)?;
    read_from(&mut file, sheet)
}

fn write_line<P: Print, E: Print>(output: &P, errors: &E, line: &[u8]) {
    write_output(
        output,
        errors,
        line,
        b"judge: the verdict could not be written to its end\n",
    );
}

fn write_verdict<P: Print, E: Print>(output: &P, errors: &E, right: &[u8], sheet: &[u8]) {
    let mut out = [0u8; LINE];
    let k = verdict_line(right, sheet, &mut out);
    write_line(output, errors, &out[..k]);
}

fn judge_sheet<R: Files + Print, E: Print>(rt: &R, errors: &E, right: &[u8]) {
    // Room for a byte more than the right text can have: what follows in a longer sheet changes no verdict (`longer_same`).
    let mut sheet = [0u8; ROOM + 1];
    match read_sheet(rt, &mut sheet) {
        Ok(n) => write_verdict(rt, errors, right, &sheet[..n]),
        Err(_) => complain(
            errors,
            b"judge: the sheet could not be read to its end, so it is not judged\n",
        ),
    }
}

// Of a list that is refused or too long the sheet is not read.
fn judge_list<R: Files + Print, E: Print>(rt: &R, errors: &E, list: &[u8]) {
    let mut out = [0u8; ROOM];
    match expect_sheet(list, &mut out) {
        Ok(k) => judge_sheet(rt, errors, &out[..k]),
        Err(k) => write_line(rt, errors, &out[..k]),
    }
}

fn main(rt: HostRuntime) {
    let errors = rt.stderr();
    // Room for a byte more than a list may have, so that a longer one shows.
    let mut list = [0u8; MAX_LIST + 1];
    match read_list(&rt, &mut list) {
        Ok(n) => judge_list(&rt, &errors, &list[..n]),
        Err(_) => complain(
            &errors,
            b"judge: the list could not be read to its end, so the sheet is not judged\n",
        ),
    }
}
