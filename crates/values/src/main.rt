// Runs the values of document 01 that are not marked M, and the limits, at full size. Each line of the output is: fittings, pipes, and
// where the list stopped (record and refusal, or 0 0).
#![tactic(auto)]

mod lists;

use calls::grow::grow_own;
use counters::answers::Stop;
use counters::counts::Counts;
use counters::refusals::Refusal;
use counters::sizes::{EDGES, ENDS, MAX_EDGES, SIDES, VERTICES};
use lent::slices::Tables;
use lists::{put_edges, put_start};
use std::io;
use std::io::Print;
use text::lines::put_line4;
use text::records::put_edge;
use text::writing::put_byte;

fn record_of(answer: Result<Stop, Refusal>) -> u64 {
    match answer {
        Ok(stop) => match stop {
            Stop::Whole => 0,
            Stop::Stopped(record, refusal) => record as u64,
        },
        Err(refusal) => 0,
    }
}

fn refusal_of(answer: Result<Stop, Refusal>) -> u64 {
    match answer {
        Ok(stop) => match stop {
            Stop::Whole => 0,
            Stop::Stopped(record, refusal) => refusal.number() as u64,
        },
        Err(refusal) => refusal.number() as u64,
    }
}

// The line of the list that the first n bytes are.
fn put_result(out: &mut [u8], at: usize, bytes: &[u8], n: usize) -> usize {
    if bytes.len() < n {
        return at;
    }
    let mut degrees = [0u16; VERTICES];
    let mut sides = [0u16; SIDES];
    let mut ends = [0u16; ENDS];
    let mut lengths = [0u32; EDGES];
    let mut volumes = [0u32; EDGES];
    let mut labels = [0u32; VERTICES];
    let mut sdegrees = [0u16; VERTICES];
    let mut ssides = [0u16; SIDES];
    let mut sends = [0u16; ENDS];
    let mut slengths = [0u32; EDGES];
    let mut svolumes = [0u32; EDGES];
    let mut slabels = [0u32; VERTICES];
    let answered = grow_own(
        Counts::none(),
        MAX_EDGES,
        &mut degrees,
        &mut sides,
        &mut ends,
        &mut lengths,
        &mut volumes,
        &mut labels,
        &mut Tables {
            degrees: &mut sdegrees,
            sides: &mut ssides,
            ends: &mut sends,
            lengths: &mut slengths,
            volumes: &mut svolumes,
            labels: &mut slabels,
        },
        &bytes[..n],
    );
    let counts = answered.counts;
    let answer = answered.answer;
    let vertices = counts.vertices;
    let edges = counts.edges;
    put_line4(
        out,
        at,
        vertices as u64,
        edges as u64,
        record_of(answer),
        refusal_of(answer),
    )
}

fn show<P: Print>(output: &P, text: &[u8], n: usize) -> io::Result<()> {
    if n <= text.len() {
        output.write_all(&text[..n])?;
    }
    Ok(())
}

fn main(rt: HostRuntime) -> io::Result<()> {
    let mut out = [0u8; 1024];
    let mut list = [0u8; 65536];

    // 4,096 fittings land, and a 4,097th is refusal 22.
    let full = put_start(&mut list, 4096);
    let mut at = put_result(&mut out, 0, &list, full);
    let over = put_byte(&mut list, full, 0x46);
    at = put_result(&mut out, at, &list, over);

    // 4,096 pipes land: a line over most fittings, and four pipes between the last three.
    let line = put_edges(&mut list, full, 4093);
    let first = put_edge(&mut list, line, 4093, 4094, 1, 0);
    let second = put_edge(&mut list, first, 4094, 4095, 1, 0);
    let third = put_edge(&mut list, second, 4093, 4094, 1, 0);
    let edges = put_edge(&mut list, third, 4094, 4095, 1, 0);
    at = put_result(&mut out, at, &list, edges);

    // Full and ring together: 23. One more pipe of any kind: 23.
    let ring = put_edge(&mut list, edges, 0, 4092, 1, 0);
    at = put_result(&mut out, at, &list, ring);
    let more = put_edge(&mut list, edges, 0, 4094, 1, 0);
    at = put_result(&mut out, at, &list, more);

    // A last record of the one byte 0x00: 4.
    let zero = put_byte(&mut list, full, 0);
    at = put_result(&mut out, at, &list, zero);
    show(&rt, &out, at)
}
