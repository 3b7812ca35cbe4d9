// A record read and written again.
ghost use Rattle.std.specs.Prelude.{◌≡◌, ◌≤◌, length, take, is_ok, IfOk, string_bytes};
ghost use Rattle.std.specs.Result.{result_err};
ghost use Rattle.records.specs.Layout.{laid_if, stem_of, cycle_of, of_bytes};
ghost use Rattle.records.specs.Refusals.{accepted, reader_refusal, rewriter_refusal};
ghost use Rattle.records.specs.Round.{of_found, Tells};
ghost use Rattle.explain.specs.Failures.{refusal_in};
ghost use Rattle.explain.specs.Text.{explanation};

use crate::failure::Failure;
use crate::text::explain;
use graph::State;
use records::refusal::Refusal;
use records::{Found, Record};
use std::alloc::Global;

// What was found, with the states that the two lists hold. Here and below the lists and the output are lent, as reader and
// writer take them.
fn view<'a>(found: Found, stem: &'a [State], cycle: &'a [State]) -> Record<'a>
    requires stem_fits { found.stem ≤ length stem.now }
    requires cycle_fits { found.cycle ≤ length cycle.now }
    ensures heading { result.heading ≡ found.heading }
    ensures stem { result.stem.now ≡ take found.stem stem.now }
    ensures cycle { result.cycle.now ≡ take found.cycle cycle.now }
{
    Record {
        heading: found.heading,
        stem: &stem[..found.stem],
        cycle: &cycle[..found.cycle],
    }
}

// Reads a record and writes it at the front of `out`: the same bytes.
pub fn rewrite(
    bytes: &[u8],
    stem: &mut [State],
    cycle: &mut [State],
    out: &mut [u8],
) -> Result<Found, Refusal>
    ensures refused { result_err result ≡ rewriter_refusal (length stem.old) (length cycle.old) bytes.now (length out.old) }
    ensures answer { IfOk result (λ f. Tells f (length stem.new) (length cycle.new) (of_bytes bytes.now)) }
    ensures told { IfOk result (λ f. of_found f stem.new cycle.new ≡ of_bytes bytes.now) }
    ensures stem { stem.new ≡ laid_if (accepted (reader_refusal (length stem.old) (length cycle.old) bytes.now)) (stem_of bytes.now) stem.old }
    ensures cycle { cycle.new ≡ laid_if (accepted (reader_refusal (length stem.old) (length cycle.old) bytes.now)) (cycle_of bytes.now) cycle.old }
    ensures output { out.new ≡ laid_if (is_ok result) bytes.now out.old }
{
    let found = reader::read(bytes, stem, cycle)?;
    writer::write(view(found, stem, cycle), out)?;
    Ok(found)
}

// Reads a record, writes it again, and tells it in words. The text is that of the record in these bytes. Where
// memory is wanting, the record is written nonetheless.
pub fn retell(
    alloc: Global,
    bytes: &[u8],
    stem: &mut [State],
    cycle: &mut [State],
    out: &mut [u8],
) -> Result<String, Failure>
    ensures refused { refusal_in result ≡ rewriter_refusal (length stem.old) (length cycle.old) bytes.now (length out.old) }
    ensures text { IfOk result (λ s. string_bytes s ≡ explanation (of_bytes bytes.now)) }
    ensures output { out.new ≡ laid_if (accepted (rewriter_refusal (length stem.old) (length cycle.old) bytes.now (length out.old))) bytes.now out.old }
{
    let found = rewrite(bytes, stem, cycle, out)?;
    Ok(explain(alloc, view(found, stem, cycle))?)
}
