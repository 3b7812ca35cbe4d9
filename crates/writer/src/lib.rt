// The writer: a record's bytes at the front of a list.
#![tactic(auto)]

ghost use Rattle.std.specs.Prelude.{◌≡◌, ◌+◌, ◌*◌, ◌≤◌, true, ◌++◌, length, take, is_ok, IfOk};
ghost use Rattle.std.specs.Result.{result_err};
ghost use Rattle.graph.specs.Tests.{error_unless};
ghost use Rattle.records.specs.declared.refusal.Refusal.TheVariants.{Value};
ghost use Rattle.records.specs.Layout.{wide, laid, laid_if, front, p_fields, depth_fields, length_fields, map_of, states_ok, lasso_ok, valid, encoding};
ghost use Rattle.records.specs.Refusals.{writer_refusal};
ghost use Rattle.records.specs.Round.{of_record, Reads};
ghost use Rattle.writer.specs.Cursors.{Puts};

use graph::State;
use patterns::proposition::Proposition;
use records::refusal::Refusal;
use records::{Heading, Record};

// Every state is one of the 1,024. The reader asks it of pairs of bytes.
fn states_stand(states: &[State]) -> bool
    ensures { result ≡ states_ok states.now }
{
    states.iter().all(|state| *state < 1024)
}

fn lasso_stands(stem: &[State], cycle: &[State]) -> bool
    ensures { result ≡ lasso_ok stem.now cycle.now }
{
    stem.len() <= 5120
        && (1..=4096).contains(&cycle.len())
        && states_stand(stem)
        && states_stand(cycle)
}

// A field that stands is in its range, and one that does not is 0 or empty.
fn is_valid(filing: Record<'_>) -> bool
    ensures { result ≡ valid (of_record filing.entry) }
{
    let h = filing.heading;
    if !h.kind.has_first() && h.p != Proposition::default() {
        return false;
    }
    if h.verdict.is_broken() {
        lasso_stands(filing.stem, filing.cycle)
    } else {
        filing.stem.is_empty() && filing.cycle.is_empty()
    }
}

fn map_of(h: Heading) -> u8
    ensures { result ≡ map_of h }
{
    u8::from(h.kind.has_first()) + 2 * u8::from(h.depth > 0) + 4 * u8::from(h.verdict.is_broken())
}

// The output, written up to `at`. The library's cursor answers each write with a count or an error, and here none can fail.
#[derive(Drop)]
struct Cursor<'a> {
    out: &'a mut [u8],
    at: usize,
}

impl Cursor<'_> {
    // Writes bytes where the cursor stands, and goes on behind them.
    fn put(&mut self, bytes: &[u8])
        requires room { self.old.at + length bytes.now ≤ length self.old.out.now }
        ensures { Puts self.old self.new bytes.now }
    {
        let end = self.at + bytes.len();
        self.out[self.at..end].copy_from_slice(bytes);
        self.at = end;
    }

    // Numbers take two bytes each. Tried `chunks_exact_mut` of the output: such a loop gets no proof.
    fn put_words(&mut self, words: &[u16])
        requires room { self.old.at + 2 * length words.now ≤ length self.old.out.now }
        ensures { Puts self.old self.new (wide words.now) }
    {
        for word in words {
            self.put(&word.to_be_bytes());
        }
    }

    fn put_front(&mut self, h: Heading)
        requires room { self.old.at + 3 ≤ length self.old.out.now }
        ensures { Puts self.old self.new (front h) }
    {
        self.put(&[map_of(h), h.kind.into(), h.verdict.into()]);
    }

    fn put_p(&mut self, h: Heading)
        requires room { self.old.at + 2 * length (p_fields h) ≤ length self.old.out.now }
        ensures { Puts self.old self.new (wide (p_fields h)) }
    {
        if h.kind.has_first() {
            self.put_words(&[h.p.on, h.p.off]);
        }
    }

    fn put_depth(&mut self, h: Heading)
        requires room { self.old.at + 2 * length (depth_fields h) ≤ length self.old.out.now }
        ensures { Puts self.old self.new (wide (depth_fields h)) }
    {
        if h.depth > 0 {
            self.put_words(&[h.depth]);
        }
    }

    fn put_lengths(&mut self, tested: Valid<'_>)
        requires room { self.old.at + 2 * length (length_fields (of_record tested.filing)) ≤ length self.old.out.now }
        ensures { Puts self.old self.new (wide (length_fields (of_record tested.entry.filing))) }
    {
        if tested.filing.heading.verdict.is_broken() {
            // `as`: a valid record's lengths are bounded, so that no test can fail here.
            let stem = tested.filing.stem.len() as u16;
            let cycle = tested.filing.cycle.len() as u16;
            self.put_words(&[stem, cycle]);
        }
    }

    // Section by section. One that does not stand takes no byte.
    fn put_record(&mut self, tested: Valid<'_>)
        requires room { self.old.at + length (encoding (of_record tested.filing)) ≤ length self.old.out.now }
        ensures { Puts self.old self.new (encoding (of_record tested.entry.filing)) }
    {
        let h = tested.filing.heading;
        self.put_front(h);
        self.put_words(&[h.q.on, h.q.off]);
        self.put_p(h);
        self.put_depth(h);
        self.put_lengths(tested);
        self.put_words(tested.filing.stem);
        self.put_words(tested.filing.cycle);
    }
}

// A record that passed the test.
#[derive(Clone, Copy)]
struct Valid<'a> {
    filing: Record<'a>,
    ghost valid: { valid (of_record filing) ≡ true },
}

impl<'a> Valid<'a> {
    fn new(filing: Record<'a>) -> Result<Valid<'a>, Refusal>
        ensures refused { result_err result ≡ error_unless (valid (of_record filing.entry)) Value }
        ensures same { IfOk result (λ v. of_record v.filing ≡ of_record filing.entry) }
    {
        if is_valid(filing) {
            Ok(Valid { filing })
        } else {
            Err(Refusal::Value)
        }
    }

    // How many bytes the record takes. It is counted before the first byte is written, so that a refusal leaves
    // the output as it was.
    fn size(self) -> usize
        ensures { result ≡ length (encoding (of_record self.entry.filing)) }
    {
        let h = self.filing.heading;
        7 + 4 * usize::from(h.kind.has_first())
            + 2 * usize::from(h.depth > 0)
            + 4 * usize::from(h.verdict.is_broken())
            + 2 * (self.filing.stem.len() + self.filing.cycle.len())
    }

    // Writes the record at the front of the lent output.
    fn put(self, out: &mut [u8])
        requires room { length (encoding (of_record self.filing)) ≤ length out.old }
        ensures written { out.new ≡ laid (encoding (of_record self.entry.filing)) out.old }
    {
        let mut cursor = Cursor { out, at: 0 };
        cursor.put_record(self);
    }
}

// Writes the record at the front of `out`, which the caller lends, and answers how many bytes it takes. `back`: read again,
// those bytes are this record.
pub fn write(filing: Record<'_>, out: &mut [u8]) -> Result<usize, Refusal>
    ensures refused { result_err result ≡ writer_refusal (of_record filing.entry) (length out.old) }
    ensures count { IfOk result (λ n. n ≡ length (encoding (of_record filing.entry))) }
    ensures output { out.new ≡ laid_if (is_ok result) (encoding (of_record filing.entry)) out.old }
    ensures back { IfOk result (λ n. Reads (take n out.new) (of_record filing.entry)) }
{
    let tested = Valid::new(filing)?;
    let size = tested.size();
    Refusal::OutputShort.unless(size <= out.len())?;
    tested.put(out);
    Ok(size)
}
