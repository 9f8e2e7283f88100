// The printing program: reads one list on standard input and prints its sheet. All that it prints is built by `print_list`.
#![tactic(auto)]

use listing::listing::{ROOM, print_list};
use std::io::Print;
use streams::reading::{MAX_LIST, read_list};
use streams::writing::{complain, write_output};

fn write_listing<P: Print, E: Print>(output: &P, errors: &E, list: &[u8]) {
    let mut out = [0u8; ROOM];
    let k = print_list(list, &mut out);
    write_output(
        output,
        errors,
        &out[..k],
        b"print: the listing could not be written to its end\n",
    );
}

fn main(rt: HostRuntime) {
    let errors = rt.stderr();
    // Room for a byte more than a list may have, so that a longer one shows.
    let mut list = [0u8; MAX_LIST + 1];
    match read_list(&rt, &mut list) {
        Ok(n) => write_listing(&rt, &errors, &list[..n]),
        Err(_) => complain(
            &errors,
            b"print: the list could not be read to its end, so nothing is printed\n",
        ),
    }
}
