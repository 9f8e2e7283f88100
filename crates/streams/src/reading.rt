// Reading a list, where a read that fails is not taken for the list's end.
ghost use Rattle.std.specs.Prelude.{◌≡◌};
ghost use Rattle.streams.specs.Input.{step_after, Held, Took};

use std::io;
use std::io::{Input, Read};

// "At most 65,536 bytes": a longer list is not read as one.
pub const MAX_LIST: usize = 65536;

// What a read answered: so many bytes more, or nothing more where it is the end. One that a signal interrupted has failed too: std's `read` does
// not ask again, nothing says that asking again would end, and the program handles no signal, so a file, a pipe or a terminal gives it none.
fn step_after(got: io::Result<usize>) -> io::Result<Option<usize>>
    ensures { result ≡ step_after got }
{
    match got {
        Ok(0) => Ok(None),
        Ok(count) => Ok(Some(count)),
        Err(error) => Err(error),
    }
}

// Reads from a source until the slice is full, the input ends or a read fails; so many bytes stand at the slice's start then. Which bytes a
// read of a file gives, and what it answers, no contract can say: so what an answer means is all in `step_after`, and here it is only handed
// on. Of a source that says which bytes it has left, as one over memory, it takes those.
pub fn read_from<R: Read>(source: &mut R, list: &mut [u8]) -> io::Result<usize>
    ensures held { Held result list.new }
    ensures took { Took (R.remaining source.old) (R.remaining source.new) result list.new }
{
    let mut done = 0;
    // A read moves the place by what it got, which no range gives.
    while done < list.len() {
        let got = source.read(&mut list[done..]);
        match step_after(got)? {
            Some(count) => done += count,
            None => break,
        }
    }
    Ok(done)
}

// The same from standard input.
pub fn read_list<R: Input>(rt: &R, list: &mut [u8]) -> io::Result<usize>
    ensures { Held result list.new }
{
    read_from(&mut rt.reader(), list)
}
