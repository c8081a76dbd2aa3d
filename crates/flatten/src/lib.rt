// Module 7: flattening of decision trees into records that stand for two levels each.
#![tactic(auto)]

ghost use Rattle.std.specs.Prelude.{◌++◌, ◌≡◌, ◌*◌, ◌/◌, ◌≤◌, length, drop};
ghost use Rattle.refusal.specs.Paper.{said};
ghost use Rattle.validation.specs.Verdict.{SoundList};
ghost use Rattle.flatten.specs.Flatten.{ring_needed, output_needed, flattening, ring_after, output_after};
ghost use Rattle.flatten.specs.Queue.{record_count};
ghost use Rattle.flatten.specs.Records.{record_size, record_words};

mod offsets;
mod records;
mod ring;

use offsets::check_offsets;
use records::write_record;
use refusal::Refusal;
use ring::Ring;
use validation::check_shape;

// Place after place, until none is queued.
fn write_records(words: &[i32], lent: &mut [i32], output: &mut [i32]) -> usize
    requires { SoundList words.now × (length lent.old ≡ ring_needed (length words.now / 5)) × (output_needed (length words.now / 5) ≤ length output.old) }
    ensures value { result ≡ record_count words.now (length words.now / 5) }
    ensures output_after { output.new ≡ record_words words.now result ++ drop (record_size * result) output.old }
{
    let mut ring = Ring::new(lent);
    ring.put(0);
    let mut k = 0;
    while let Some(place) = ring.take() {
        write_record(words, place, k, &mut ring, output);
        k += 1;
    }
    k
}

// A tree's records, from the front of the output. The ring is clear afterwards.
pub fn build_flat_tree(
    words: &[i32],
    ring: &mut [i32],
    output: &mut [i32],
) -> Result<usize, Refusal>
    ensures answers { said result ≡ flattening words.now (length ring.old) (length output.old) }
    ensures leaves { ring.new ≡ ring_after (flattening words.now (length ring.old) (length output.old)) words.now ring.old }
    ensures writes { output.new ≡ output_after (flattening words.now (length ring.old) (length output.old)) words.now output.old }
{
    check_shape(words)?;
    if words.is_empty() {
        return Ok(0);
    }
    let n = words.len() / 5;
    check_offsets(words, n)?;
    if ring.len() < n + 1 {
        return Err(Refusal::TooSmall {
            needed: (n + 1) as u32,
        });
    }
    let most = 6 * (2 * n - 1);
    if output.len() < most {
        return Err(Refusal::TooSmall {
            needed: most as u32,
        });
    }
    let records = write_records(words, &mut ring[..n + 1], output);
    ring[..n + 1].fill(0);
    Ok(records)
}
