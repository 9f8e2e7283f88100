// Writing. What fails is said on standard error, and the program's status stays 0: ./run gives one.
use std::io::Print;

pub fn complain<E: Print>(errors: &E, what: &[u8]) {
    let _ = errors.write_all(what);
}

// All of the bytes on standard output, or a complaint.
pub fn write_output<P: Print, E: Print>(output: &P, errors: &E, bytes: &[u8], failed: &[u8]) {
    if output.write_all(bytes).is_err() {
        complain(errors, failed);
    }
}
