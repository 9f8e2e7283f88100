// The program behind ./run --list: reads one list on standard input and writes its canonical list, the one that S-1 defines of the register
// that it leaves. All that it writes is built by `canonical_list`.
#![tactic(auto)]

mod output;

use output::{ROOM, canonical_list};
use std::io::Print;
use streams::reading::{MAX_LIST, read_list};
use streams::writing::{complain, write_output};

fn write_canonical<P: Print, E: Print>(standard: &P, errors: &E, list: &[u8]) {
    let mut out = [0u8; ROOM];
    match canonical_list(list, &mut out) {
        Ok(k) => write_output(
            standard,
            errors,
            &out[..k],
            b"canonical: the list could not be written to its end\n",
        ),
        Err(k) => complain(errors, &out[..k]),
    }
}

fn main(rt: HostRuntime) {
    let errors = rt.stderr();
    // Room for a byte more than a list may have, so that a longer one shows.
    let mut list = [0u8; MAX_LIST + 1];
    match read_list(&rt, &mut list) {
        Ok(n) => write_canonical(&rt, &errors, &list[..n]),
        Err(_) => complain(
            &errors,
            b"canonical: the list could not be read to its end, so none is written\n",
        ),
    }
}
