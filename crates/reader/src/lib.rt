// The reader: every test first, then stem and loop to the fronts of two lists.
#![tactic(auto)]

ghost use Rattle.std.specs.Prelude.{◌≡◌, ◌+◌, ◌*◌, ◌≤◌, [], ◌∷◌, length, is_ok, IfOk, OnOk};
ghost use Rattle.std.specs.Result.{result_err};
ghost use Rattle.graph.specs.Bytes.{byte, pair};
ghost use Rattle.graph.specs.Tests.{error_unless, first_error};
ghost use Rattle.records.specs.declared.refusal.Refusal.TheVariants.{Value};
ghost use Rattle.records.specs.Layout.{laid, laid_if, pairs, states_ok, depth_at, lengths_at, stem_at, kind_in, verdict_in, p_of, q_of, depth_of, heading_of, stem_of, cycle_of, of_bytes};
ghost use Rattle.records.specs.Refusals.{reach, front_refusal, fields_refusal, lengths_refusal, columns_refusal, refusal, lists_ok, reader_refusal};
ghost use Rattle.records.specs.Round.{of_found, Writes, Tells};
ghost use Rattle.reader.specs.Parts.{ToldBy, Counted, Columns, Framed, numbers};

use graph::State;
use graph::fields::pair_at;
use patterns::kind::Kind;
use patterns::proposition::Proposition;
use records::refusal::Refusal;
use records::verdict::Verdict;
use records::{Found, Heading};

// The bytes reach up to `end`: what `meanings` asks of sources, by the same generic test, with the reader's error.
fn reach_to(bytes: &[u8], end: usize) -> Result<(), Refusal>
    ensures refused { result_err result ≡ reach bytes.now end }
    ensures passed { OnOk result (end ≤ length bytes.now) }
{
    Refusal::Ends.unless(end <= bytes.len())
}

// Every one of the states, two bytes each, is one of the 1,024. The writer asks it of numbers.
fn column_stands(column: &[[u8; 2]]) -> bool
    ensures { result ≡ states_ok (numbers column.now) }
{
    column
        .iter()
        .all(|piece| State::from_be_bytes(*piece) < 1024)
}

// The `count` pieces of two bytes each from `at` on.
fn pieces(bytes: &[u8], at: usize, count: usize) -> &[[u8; 2]]
    requires within { at + 2 * count ≤ length bytes.now }
    ensures value { numbers result.now ≡ pairs bytes.now at count }
    ensures len { length result.now ≡ count }
{
    let (pieces, _) = bytes[at..at + 2 * count].as_chunks::<2>();
    pieces
}

// The `count` states from `at` on, two bytes each, once tested.
fn column(bytes: &[u8], at: usize, count: usize) -> Result<&[[u8; 2]], Refusal>
    requires small { at + 2 * count ≤ 65535 }
    ensures refused { result_err result ≡ first_error (reach bytes.now (at + 2 * count) ∷ error_unless (states_ok (pairs bytes.now at count)) Value ∷ []) }
    ensures read { IfOk result (λ c. numbers c.now ≡ pairs bytes.now at count) }
    ensures len { IfOk result (λ c. length c.now ≡ count) }
{
    reach_to(bytes, at + 2 * count)?;
    let states = pieces(bytes, at, count);
    Refusal::Value.unless(column_stands(states))?;
    Ok(states)
}

// Writes numbers of two bytes each at the front of a list: the rest of it is as before. By places: tried
// `list.iter_mut().zip(column)`, where no invariant can name what the list holds.
fn unpack(column: &[[u8; 2]], list: &mut [State])
    requires room { length column.now ≤ length list.old }
    ensures { list.new ≡ laid (numbers column.now) list.old }
{
    for (i, piece) in column.iter().enumerate() {
        list[i] = State::from_be_bytes(*piece);
    }
}

// Which fields stand: the one place where the map byte is taken apart. No set of flags, since of other bits the record is
// refused.
#[derive(Clone, Copy)]
struct Standing {
    p: bool,
    depth: bool,
    lasso: bool,
}

impl Standing {
    fn new(map: u8) -> Standing
        ensures { ToldBy map result }
    {
        Standing {
            p: map % 2 == 1,
            depth: map / 2 % 2 == 1,
            lasso: map / 4 % 2 == 1,
        }
    }
}

// Bytes of which the first three were tested.
#[derive(Clone, Copy)]
struct Front<'a> {
    bytes: &'a [u8],
    stands: Standing,
    kind: Kind,
    verdict: Verdict,
    ghost stands_is: { ToldBy (byte bytes.now 0) stands },
    ghost kind_is: { kind ≡ kind_in bytes.now },
    ghost verdict_is: { verdict ≡ verdict_in bytes.now },
}

impl<'a> Front<'a> {
    fn new(bytes: &'a [u8]) -> Result<Front<'a>, Refusal>
        ensures refused { result_err result ≡ front_refusal bytes.now }
        ensures same { IfOk result (λ f. f.bytes.now ≡ bytes.now) }
    {
        reach_to(bytes, 1)?;
        Refusal::Map.unless(bytes[0] < 8)?;
        let stands = Standing::new(bytes[0]);
        reach_to(bytes, 2)?;
        let kind = Kind::try_from(bytes[1])?;
        reach_to(bytes, 3)?;
        let verdict = Verdict::try_from(bytes[2])?;
        let agree = stands.p == kind.has_first() && stands.lasso == verdict.is_broken();
        Refusal::Map.unless(agree)?;
        Ok(Front {
            bytes,
            stands,
            kind,
            verdict,
        })
    }

    // Where depth, lengths and stem begin, or would begin.
    fn depth_at(self) -> usize
        ensures place { result ≡ depth_at (byte self.entry.bytes.now 0) }
        ensures small { result ≤ 11 }
    {
        if self.stands.p { 11 } else { 7 }
    }

    fn lengths_at(self) -> usize
        ensures place { result ≡ lengths_at (byte self.entry.bytes.now 0) }
        ensures small { result ≤ 13 }
    {
        self.depth_at() + if self.stands.depth { 2 } else { 0 }
    }

    fn stem_at(self) -> usize
        ensures place { result ≡ stem_at (byte self.entry.bytes.now 0) }
        ensures small { result ≤ 17 }
    {
        self.lengths_at() + if self.stands.lasso { 4 } else { 0 }
    }

    // The proposition in the four bytes from `at` on.
    fn proposition_at(self, at: usize) -> Proposition
        requires small { at ≤ 7 }
        ensures on { result.on ≡ pair self.entry.bytes.now at }
        ensures off { result.off ≡ pair self.entry.bytes.now (at + 2) }
    {
        Proposition {
            on: pair_at(self.bytes, at),
            off: pair_at(self.bytes, at + 2),
        }
    }

    fn q(self) -> Proposition
        ensures { result ≡ q_of self.entry.bytes.now }
    {
        self.proposition_at(3)
    }

    fn p(self) -> Proposition
        ensures { result ≡ p_of self.entry.bytes.now }
    {
        if self.stands.p {
            self.proposition_at(7)
        } else {
            Proposition::default()
        }
    }

    fn depth(self) -> u16
        ensures { result ≡ depth_of self.entry.bytes.now }
    {
        if self.stands.depth {
            pair_at(self.bytes, self.depth_at())
        } else {
            0
        }
    }

    fn heading(self) -> Result<Heading, Refusal>
        ensures refused { result_err result ≡ fields_refusal self.entry.bytes.now }
        ensures read { IfOk result (λ h. h ≡ heading_of self.entry.bytes.now) }
        ensures reached { OnOk result (lengths_at (byte self.entry.bytes.now 0) ≤ length self.entry.bytes.now) }
    {
        reach_to(self.bytes, self.lengths_at())?;
        let depth = self.depth();
        Refusal::Value.unless(!self.stands.depth || depth > 0)?;
        Ok(Heading {
            kind: self.kind,
            verdict: self.verdict,
            p: self.p(),
            q: self.q(),
            depth,
        })
    }

    // How many states stem and loop have.
    fn lengths(self) -> Result<(usize, usize), Refusal>
        requires reached { lengths_at (byte self.bytes.now 0) ≤ length self.bytes.now }
        ensures refused { result_err result ≡ lengths_refusal self.entry.bytes.now }
        ensures read { IfOk result (λ n. Counted self.entry.bytes.now n.0 n.1) }
    {
        if !self.stands.lasso {
            return Ok((0, 0));
        }
        let at = self.lengths_at();
        reach_to(self.bytes, at + 2)?;
        let stem = usize::from(pair_at(self.bytes, at));
        Refusal::Value.unless(stem <= 5120)?;
        reach_to(self.bytes, at + 4)?;
        let cycle = usize::from(pair_at(self.bytes, at + 2));
        Refusal::Value.unless((1..=4096).contains(&cycle))?;
        Ok((stem, cycle))
    }

    // Stem and loop.
    fn columns(self, stem: usize, cycle: usize) -> Result<(&'a [[u8; 2]], &'a [[u8; 2]]), Refusal>
        requires counted { Counted self.bytes.now stem cycle }
        ensures refused { result_err result ≡ columns_refusal self.entry.bytes.now }
        ensures read { IfOk result (λ c. Columns self.entry.bytes.now c.0.now c.1.now) }
    {
        let at = self.stem_at();
        let middle = at + 2 * stem;
        let end = middle + 2 * cycle;
        let stem = column(self.bytes, at, stem)?;
        let cycle = column(self.bytes, middle, cycle)?;
        Refusal::LeftOver.unless(self.bytes.len() == end)?;
        Ok((stem, cycle))
    }
}

// A record whose bytes have all been tested: its heading, and stem and loop with two bytes to a state.
#[derive(Clone, Copy)]
struct Frame<'a> {
    heading: Heading,
    stem: &'a [[u8; 2]],
    cycle: &'a [[u8; 2]],
}

fn read_frame(bytes: &[u8]) -> Result<Frame<'_>, Refusal>
    ensures refused { result_err result ≡ refusal bytes.now }
    ensures read { IfOk result (λ f. Framed bytes.now f.heading f.stem.now f.cycle.now) }
{
    let front = Front::new(bytes)?;
    let heading = front.heading()?;
    let (stem, cycle) = front.lengths()?;
    let (stem, cycle) = front.columns(stem, cycle)?;
    Ok(Frame {
        heading,
        stem,
        cycle,
    })
}

// Lists of these lengths can take every stem and every loop.
fn lists_fit(stem: usize, cycle: usize) -> bool
    ensures { result ≡ lists_ok stem cycle }
{
    5120 <= stem && 4096 <= cycle
}

// Reads a record: its stem and its loop go to the fronts of the two lists, which the caller lends. `told`: what was found,
// with what the lists hold, is the record in the bytes. `only`: written again, that is exactly these bytes.
pub fn read(bytes: &[u8], stem: &mut [State], cycle: &mut [State]) -> Result<Found, Refusal>
    ensures refused { result_err result ≡ reader_refusal (length stem.old) (length cycle.old) bytes.now }
    ensures answer { IfOk result (λ f. Tells f (length stem.new) (length cycle.new) (of_bytes bytes.now)) }
    ensures told { IfOk result (λ f. of_found f stem.new cycle.new ≡ of_bytes bytes.now) }
    ensures stem { stem.new ≡ laid_if (is_ok result) (stem_of bytes.now) stem.old }
    ensures cycle { cycle.new ≡ laid_if (is_ok result) (cycle_of bytes.now) cycle.old }
    ensures only { IfOk result (λ f. Writes (of_found f stem.new cycle.new) bytes.now) }
{
    Refusal::ListShort.unless(lists_fit(stem.len(), cycle.len()))?;
    let frame = read_frame(bytes)?;
    unpack(frame.stem, stem);
    unpack(frame.cycle, cycle);
    Ok(Found {
        heading: frame.heading,
        stem: frame.stem.len(),
        cycle: frame.cycle.len(),
    })
}
