// Land: a list landed on the register as it is, once it has passed its replay.
ghost use Rattle.std.specs.Prelude.{◌≡◌, ℕ, []};
ghost use Rattle.nursery.specs.Calls.{lands};
ghost use Rattle.counters.specs.Answers.{as_counts, list_reply};
ghost use Rattle.lent.specs.Lent.{of_lent, SameLent};
ghost use Rattle.tables.specs.Meaning.{tables};
ghost use Rattle.landing.specs.Records.{land_list_in};
ghost use Rattle.landing.specs.Meaning.{as_reading};
ghost use Rattle.admission.specs.Lent.{lent, outcome};
ghost use Rattle.admission.specs.Own.{own_step};

use admission::gate::pass_gate;
use counters::answers::{Answered, Stop};
use counters::counts::Counts;
use landing::records::{Reading, land_list};
use lent::slices::Tables;

// The list alone, without the gate. The counts lie here, and are updated at each landed record.
pub fn land_read(c: Counts, limit: u16, register: &mut Tables, list: &[u8]) -> Reading
    ensures lent { SameLent register.new register.old }
    ensures lands { as_reading (of_lent register.new) result ≡ land_list_in (of_lent register.old) (as_counts c) limit list.now }
{
    let mut vertices = c.vertices;
    let mut edges = c.edges;
    let mut blocks = c.blocks;
    let mut relabellings = c.relabellings;
    let stop = land_list(
        &mut vertices,
        &mut edges,
        &mut blocks,
        &mut relabellings,
        limit,
        register,
        list,
    );
    Reading {
        counts: Counts {
            vertices,
            edges,
            blocks,
            relabellings,
        },
        stop,
    }
}

// On the tables of one house. The register may not pass `limit` edges.
pub fn land_own(
    c: Counts,
    limit: u16,
    degrees: &mut [u16],
    sides: &mut [u16],
    ends: &mut [u16],
    lengths: &mut [u32],
    volumes: &mut [u32],
    labels: &mut [u32],
    scratch: &mut Tables,
    list: &[u8],
) -> Answered<Stop>
    ensures lent { SameLent scratch.new scratch.old }
    ensures steps { (removals : ℕ) → outcome (tables degrees.new sides.new ends.new lengths.new volumes.new labels.new) (as_counts result.counts) (of_lent scratch.new) [] (list_reply result.answer)
        ≡ own_step limit removals (lands list.now)
        (lent (tables degrees.old sides.old ends.old lengths.old volumes.old labels.old) (as_counts c) (of_lent scratch.old)) }
{
    let mut register = Tables {
        degrees,
        sides,
        ends,
        lengths,
        volumes,
        labels,
    };
    let passed = pass_gate(&register.view(), c, scratch);
    match passed {
        Ok(()) => {
            let reading = land_read(c, limit, &mut register, list);
            let counts = reading.counts;
            let stop = reading.stop;
            Answered {
                counts,
                answer: Ok(stop),
            }
        }
        Err(refusal) => Answered {
            counts: c,
            answer: Err(refusal),
        },
    }
}
