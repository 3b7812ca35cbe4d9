// A control table: the bytes of a graph in a fixed layout.
#![tactic(auto)]

ghost use Rattle.std.specs.Prelude.{◌≡◌, ℕ, ◌+◌, ◌-◌, ◌^◌, ◌<◌, ◌≤◌, length, Some, None, OnSome, IfSome, IfNone, IfOk, if◌then◌else◌, ◌==◌, nat_lt};
ghost use Rattle.std.specs.Result.{result_err, ForOk};
ghost use Rattle.meanings.specs.Fields.{unless};
ghost use Rattle.graph.specs.Bytes.{byte, pair};
ghost use Rattle.meanings.specs.Table.{count, arrows, header_fault, columns_fault, rows_fault, targets_fault, row_fault, target_fault, initial_of, word_of, row, before, target, table_fault, table, columns_by, columns};
ghost use Rattle.table.specs.Offsets.{initials_offset, rows_offset, targets_offset, end_offset};
ghost use Rattle.table.specs.Tests.{IsFirstFault};
ghost use Rattle.meanings.proofs.TableSound.{table_sound};

use graph::fault::{Cause, Fault};
use graph::fields::pair_at;
use graph::source::Source;
use graph::{State, Word};
use meanings::Columns;
use meanings::fields::{reach_to, test};

// Tests the places below `n` in order, up to the first that fails. Tried `(0..n).try_for_each(..)` at its two calls: their
// contracts stayed open.
fn test_each<F: Fn(u16) -> Result<(), Fault>>(n: u16, test_at: F) -> Result<(), Fault>
    requires { (k : ℕ) → k < n → F.pre test_at k }
    ensures { IsFirstFault (F.post test_at) n result }
{
    for k in 0..n {
        test_at(k)?;
    }
    Ok(())
}

// The columns that the map byte names: the one place where it is taken apart. No `TryFrom`, since both types stand in crates
// below.
fn read_columns(map: u8) -> Result<Columns, Fault>
    ensures fault { result_err result ≡ unless (nat_lt map 4) Cause.MapBit 0 }
    ensures named { IfOk result (λ c. c ≡ columns_by None map) }
{
    test(map < 4, Cause::MapBit, 0)?;
    Ok(Columns {
        words: map & 1 == 1,
        initials: map & 2 == 2,
    })
}

// The same as `pair_at`, of bytes that are known to be there.
fn pair_in(bytes: &[u8], at: usize) -> u16
    requires { at + 1 < length bytes.now }
    ensures { result ≡ pair bytes.now at }
{
    u16::from_be_bytes([bytes[at], bytes[at + 1]])
}

// Bytes whose header has no fault, and what it says: which columns stand, and how many states and arrows there are.
#[derive(Clone, Copy)]
struct Header<'a> {
    bytes: &'a [u8],
    columns: Columns,
    states: u16,
    width: u16,
    ghost headed: { header_fault bytes.now ≡ None },
    ghost mapped: { columns ≡ columns_by None (byte bytes.now 0) },
    ghost counted: { states ≡ count bytes.now },
    ghost spanned: { width ≡ arrows bytes.now },
}

impl<'a> Header<'a> {
    fn read(bytes: &'a [u8]) -> Result<Header<'a>, Fault>
        ensures fault { result_err result ≡ header_fault bytes.now }
        ensures of_bytes { IfOk result (λ h. h.bytes.now ≡ bytes.now) }
    {
        reach_to(bytes, 1)?;
        let columns = read_columns(bytes[0])?;
        reach_to(bytes, 3)?;
        let states = pair_at(bytes, 1);
        test((1..=1024).contains(&states), Cause::Range, 1)?;
        reach_to(bytes, 5)?;
        let width = pair_at(bytes, 3);
        test((1..=16384).contains(&width), Cause::Range, 3)?;
        Ok(Header {
            bytes,
            columns,
            states,
            width,
        })
    }

    // The columns come one after the other: words, initial states, row ends and targets.
    fn initials_at(&self) -> usize
        ensures at { result ≡ initials_offset self.now.bytes.now }
        ensures bound { result < 2 ^ 18 }
    {
        if self.columns.words {
            5 + 2 * self.states as usize
        } else {
            5
        }
    }

    fn rows_at(&self) -> usize
        ensures at { result ≡ rows_offset self.now.bytes.now }
        ensures bound { result < 2 ^ 19 }
    {
        let at = self.initials_at();
        if self.columns.initials {
            at + (self.states as usize + 7) / 8
        } else {
            at
        }
    }

    fn targets_at(&self) -> usize
        ensures at { result ≡ targets_offset self.now.bytes.now }
        ensures bound { result < 2 ^ 20 }
    {
        self.rows_at() + 2 * self.states as usize
    }

    // The words need only be there; the initial states have no bit past N.
    fn test_columns(&self) -> Result<(), Fault>
        ensures { result_err result ≡ columns_fault self.now.bytes.now }
    {
        reach_to(self.bytes, self.initials_at())?;
        let end = self.rows_at();
        reach_to(self.bytes, end)?;
        let used = (self.states - 1) % 8 + 1;
        let clear = !self.columns.initials || u16::from(self.bytes[end - 1]) < 1 << used;
        test(clear, Cause::Range, end - 1)
    }
}

// The header, and where row ends and targets begin: found once, since each question about an arrow looks there.
#[derive(Clone, Copy)]
struct Layout<'a> {
    header: Header<'a>,
    rows_at: usize,
    targets_at: usize,
    ghost rows: { rows_at ≡ rows_offset header.bytes.now },
    ghost targets: { targets_at ≡ targets_offset header.bytes.now },
    ghost rows_low: { rows_at < 2 ^ 19 },
    ghost targets_low: { targets_at < 2 ^ 20 },
}

impl<'a> Layout<'a> {
    fn new(header: Header<'a>) -> Layout<'a>
        ensures { result.header ≡ header.entry }
    {
        Layout {
            header,
            rows_at: header.rows_at(),
            targets_at: header.targets_at(),
        }
    }

    fn end(&self) -> usize
        ensures { result ≡ end_offset self.now.header.bytes.now }
    {
        self.targets_at + 2 * self.header.width as usize
    }

    // The row end of state `i` lies above the one before and not above T, and the last is T.
    fn test_row(&self, i: State) -> Result<(), Fault>
        requires there { i < count self.now.header.bytes.now }
        requires reached { targets_offset self.now.header.bytes.now ≤ length self.now.header.bytes.now }
        ensures { result_err result ≡ row_fault self.now.header.bytes.now i }
    {
        let Header {
            bytes,
            states,
            width,
            ..
        } = self.header;
        let at = self.rows_at + 2 * i as usize;
        let start = if i == 0 { 0 } else { pair_in(bytes, at - 2) };
        let end = pair_in(bytes, at);
        let fits = start < end && end <= width && (i < states - 1 || end == width);
        test(fits, Cause::RowEnd, at)
    }

    fn test_rows(&self) -> Result<(), Fault>
        ensures { result_err result ≡ rows_fault self.now.header.bytes.now }
    {
        reach_to(self.header.bytes, self.targets_at)?;
        test_each(self.header.states, |i| self.test_row(i))
    }

    fn test_target(&self, k: u16) -> Result<(), Fault>
        requires there { k < arrows self.now.header.bytes.now }
        requires reached { end_offset self.now.header.bytes.now ≤ length self.now.header.bytes.now }
        ensures { result_err result ≡ target_fault self.now.header.bytes.now k }
    {
        let at = self.targets_at + 2 * k as usize;
        let target = pair_in(self.header.bytes, at);
        test(target < self.header.states, Cause::Target, at)
    }

    // Nothing lies behind the targets.
    fn test_length(&self) -> Result<(), Fault>
        ensures { let end = end_offset self.now.header.bytes.now in
            result_err result ≡ unless (length self.now.header.bytes.now == end) Cause.LeftOver end }
    {
        let end = self.end();
        test(self.header.bytes.len() == end, Cause::LeftOver, end)
    }

    fn test_targets(&self) -> Result<(), Fault>
        ensures { result_err result ≡ targets_fault self.now.header.bytes.now }
    {
        reach_to(self.header.bytes, self.end())?;
        test_each(self.header.width, |k| self.test_target(k))?;
        self.test_length()
    }

    // The layout of bytes that pass every test.
    fn tested(bytes: &'a [u8]) -> Result<Layout<'a>, Fault>
        ensures fault { result_err result ≡ table_fault bytes.now }
        ensures of_bytes { IfOk result (λ l. l.header.bytes.now ≡ bytes.now) }
    {
        let header = Header::read(bytes)?;
        header.test_columns()?;
        let layout = Layout::new(header);
        layout.test_rows()?;
        layout.test_targets()?;
        Ok(layout)
    }
}

// A state of a table that passed every test: what is told of it lies in the bytes, and no question looks whether it does.
#[derive(Clone, Copy)]
struct Here<'a> {
    layout: &'a Layout<'a>,
    state: State,
    ghost tested: { table_fault layout.now.header.bytes.now ≡ None },
    ghost there: { state < count layout.now.header.bytes.now },
}

impl Here<'_> {
    fn initial(self) -> bool
        ensures { result ≡ initial_of self.entry.layout.now.header.bytes.now self.entry.state }
    {
        let header = self.layout.header;
        if !header.columns.initials {
            return self.state == 0;
        }
        let at = header.initials_at() + self.state as usize / 8;
        (header.bytes[at] >> (self.state % 8)) % 2 == 1
    }

    fn word(self) -> Word
        ensures { result ≡ word_of self.entry.layout.now.header.bytes.now self.entry.state }
    {
        let header = self.layout.header;
        if header.columns.words {
            pair_in(header.bytes, 5 + 2 * self.state as usize)
        } else {
            0
        }
    }

    // How many arrows this state and those before it have.
    fn row_end(self) -> u16
        ensures { result ≡ row self.entry.layout.now.header.bytes.now self.entry.state }
    {
        let layout = self.layout;
        pair_in(
            layout.header.bytes,
            layout.rows_at + 2 * self.state as usize,
        )
    }

    // How many arrows the states before it have.
    fn row_start(self) -> u16
        ensures { result ≡ before self.entry.layout.now.header.bytes.now self.entry.state }
    {
        if self.state == 0 {
            return 0;
        }
        let layout = self.layout;
        pair_in(
            layout.header.bytes,
            layout.rows_at + 2 * (self.state - 1) as usize,
        )
    }

    fn degree(self) -> u16
        ensures { let b = self.entry.layout.now.header.bytes.now in let s = self.entry.state in
            result ≡ row b s - before b s }
    {
        self.row_end() - self.row_start()
    }

    fn arrow(self, j: u16) -> Option<State>
        ensures { let b = self.entry.layout.now.header.bytes.now in let s = self.entry.state in
            result ≡ (if nat_lt j (row b s - before b s) then Some (target b (before b s + j)) else None) }
    {
        if j >= self.degree() {
            return None;
        }
        let layout = self.layout;
        let k = self.row_start() + j;
        Some(pair_in(layout.header.bytes, layout.targets_at + 2 * k as usize))
    }
}

// The bytes, with their layout or the first fault in them.
#[derive(Clone, Copy)]
pub struct Table<'a> {
    bytes: &'a [u8],
    layout: Result<Layout<'a>, Fault>,
    ghost tested: { result_err layout ≡ table_fault bytes.now },
    ghost same_bytes: { ForOk layout (λ l. l.header.bytes.now ≡ bytes.now) },
}

impl<'a> Table<'a> {
    // The source of these bytes, whatever they are: a table with a fault is a source too.
    pub fn new(bytes: &'a [u8]) -> Table<'a>
        ensures { result.bytes.now ≡ bytes.now }
    {
        Table {
            bytes,
            layout: Layout::tested(bytes),
        }
    }

    // Which columns stand. The graph does not tell: a column left out and one of zeros mean the same.
    pub fn columns(&self) -> Columns
        ensures { result ≡ columns self.now.bytes.now }
    {
        self.layout
            .map_or(Columns::default(), |layout| layout.header.columns)
    }

    fn holding(&self, s: State) -> Option<Here<'_>>
        ensures missing { IfNone result ((table self.now.bytes.now).states ≤ s) }
        ensures state { IfSome result (λ h. h.state ≡ s) }
        ensures same_bytes { IfSome result (λ h. h.layout.now.header.bytes.now ≡ self.now.bytes.now) }
    {
        match &self.layout {
            Ok(layout) if s < layout.header.states => Some(Here { layout, state: s }),
            _ => None,
        }
    }
}

#[tactic(auto, using(crate::proofs::Questions::questions))]
impl Source for Table<'_> {
    ghost meaning = { λ t. table t.bytes.now };

    fn check(&self) -> Result<(), Fault> {
        self.layout.map(|_| ())
    }

    fn states(&self) -> u16 {
        self.layout.map_or(0, |layout| layout.header.states)
    }

    fn width(&self) -> u16 {
        self.layout.map_or(0, |layout| layout.header.width)
    }

    fn initial(&self, s: State) -> bool {
        self.holding(s).is_some_and(|here| here.initial())
    }

    fn word(&self, s: State) -> Word {
        self.holding(s).map_or(0, |here| here.word())
    }

    fn degree(&self, s: State) -> u16 {
        self.holding(s).map_or(0, |here| here.degree())
    }

    fn arrow(&self, s: State, j: u16) -> Option<State> {
        self.holding(s)?.arrow(j)
    }

    ghost sound = { λ t. table_sound t.bytes.now };
}
