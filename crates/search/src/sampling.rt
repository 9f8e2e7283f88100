// Which edges a search tries first. In a dense house most edges are longer than most distances, and none of these lies on a least way.
// So its lists hold short edges at first, and all of them only where the distance that is found is above the limit. What is short is
// judged by a sample. It is a hint: where it misleads, the search takes longer, and nothing is proved of it.
ghost use Rattle.std.specs.Prelude.{◌<◌};

use tables::access::{add32, at, of, one_more16};

// Every length is below it.
pub const NO_LIMIT: u32 = 4294967295;

// At least so many edges are looked at.
const SAMPLES: u16 = 64;

// With fewer short ones among them the others would be needed too.
const FEW: u16 = 2;

// With a greater ratio the sample would say little of what is below the limit.
const MOST_RATIO: u16 = 5;

fn higher_end(ends: &[u16], e: u16) -> u16 {
    let i = 2 * (e as usize);
    at(ends, i).max(at(ends, i + 1))
}

fn one_if_less(count: u16, length: u32, limit: u32) -> u16 {
    if length < limit {
        one_more16(count)
    } else {
        count
    }
}

// The highest vertex number at an edge of the sample, which is every so many edges, counted back from the number of all.
fn sampled_top(ends: &[u16], edges: u16, step: u16) -> u16
    requires { 0 < step }
{
    let mut top: u16 = 0;
    for e in (edges % step..edges).step_by(step as usize) {
        top = top.max(higher_end(ends, e));
    }
    top
}

// The sum of the sample's lengths.
fn sampled_sum(lengths: &[u32], edges: u16, step: u16) -> u32
    requires { 0 < step }
{
    let mut sum: u32 = 0;
    for e in (edges % step..edges).step_by(step as usize) {
        sum = add32(sum, of(lengths, e));
    }
    sum
}

// How many lengths of the sample are below the limit.
fn sampled_below(lengths: &[u32], edges: u16, step: u16, limit: u32) -> u16
    requires { 0 < step }
{
    let mut count: u16 = 0;
    for e in (edges % step..edges).step_by(step as usize) {
        count = one_if_less(count, of(lengths, e), limit);
    }
    count
}

// A part of the mean length, or of up to twice that, since up to twice SAMPLES edges are looked at; no limit where hardly an edge is below it.
fn limit_at(lengths: &[u32], edges: u16, step: u16, ratio: u16) -> u32
    requires { (0 < step) × (0 < ratio) }
{
    let mean = sampled_sum(lengths, edges, step) / (SAMPLES as u32);
    let limit = mean / (ratio as u32);
    if sampled_below(lengths, edges, step, limit) < FEW {
        return NO_LIMIT;
    }
    limit
}

// The length below which an edge is tried first. Where each vertex has d edges of random lengths, few distances are above 10 / d of the
// longest: so the mean length is divided by a twentieth of d.
pub fn first_limit(ends: &[u16], lengths: &[u32], edges: u16) -> u32 {
    let step = edges / SAMPLES;
    if step == 0 {
        return NO_LIMIT;
    }
    let top = sampled_top(ends, edges, step);
    if top == 0 {
        return NO_LIMIT;
    }
    let ratio = edges / 10 / top;
    if ratio == 0 {
        return NO_LIMIT;
    }
    limit_at(lengths, edges, step, ratio.min(MOST_RATIO))
}
