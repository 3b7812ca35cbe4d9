// Prints the graph that a control table, or a list of rules, tells.
#![tactic(auto)]

ghost use Rattle.std.specs.Prelude.{◌≡◌, string_bytes, MatchResult};
ghost use Rattle.describe.specs.declared.Failure.TheVariants.{Memory, Faulty};
ghost use Rattle.describe.specs.Answer.{layered, Tells, Fails, asked, columns_asked};

use command::{finish, read_input};
use graph::Word;
use graph::fault::Fault;
use graph::source::Source;
use meanings::Columns;
use reading::Reading;
use rules::RuleList;
use std::alloc::{AllocError, Global};
use std::io::Read;
use std::process::ExitCode;
use std::rt::Env;
use std::{env, io};
use table::Table;
use thiserror::Error;

// What the bytes on standard input are.
#[derive(Clone, Copy)]
enum Form {
    Table,
    Rules,
}

// A reading that is laid over the source.
#[derive(Clone, Copy)]
struct Layer {
    bit: u8,
    mask: Word,
}

impl Layer {
    fn parse(bit: &str, mask: &str) -> Option<Layer> {
        // The library's readers take a sign too.
        if bit.starts_with('+') || mask.starts_with('+') {
            return None;
        }
        Some(Layer {
            bit: bit.parse().ok()?,
            mask: Word::from_str_radix(mask, 16).ok()?,
        })
    }
}

// What the arguments ask for.
#[derive(Clone, Copy)]
struct Request {
    form: Form,
    layer: Option<Layer>,
}

impl Request {
    fn parse(words: &[String]) -> Option<Request> {
        let (form, rest) = match words {
            [first, rest @ ..] if first.as_str() == "rules" => (Form::Rules, rest),
            _ => (Form::Table, words),
        };
        let layer = match rest {
            [] => None,
            [name, bit, mask] if name.as_str() == "reading" => {
                Some(Layer::parse(bit.as_str(), mask.as_str())?)
            }
            _ => return None,
        };
        Some(Request { form, layer })
    }
}

// Why nothing is printed.
#[derive(Debug, Drop, Error)]
enum Failure {
    #[error("arguments: [rules] [reading BIT MASK], BIT from 0 to 255, MASK in hexadecimal")]
    Usage,
    #[error(transparent)]
    Stream(#[from] io::Error),
    #[error("out of memory")]
    Memory,
    #[error("fault {0}: {cause}", cause = .0.cause)]
    Faulty(Fault),
}

// By hand, as the next: clauses name these two errors, and a derived `From` has no contract.
impl From<AllocError> for Failure {
    ghost from_gives = { λ _ r. r ≡ Memory };

    fn from(_e: AllocError) -> Failure {
        Failure::Memory
    }
}

impl From<Fault> for Failure {
    ghost from_gives = { λ f r. r ≡ Faulty f };

    fn from(f: Fault) -> Failure {
        Failure::Faulty(f)
    }
}

fn read_request(rt: &(impl Env + AllocGlobal)) -> Result<Request, Failure> {
    let words: Vec<String> = env::args(rt)?.skip(1).collect(rt.alloc())?;
    Request::parse(&words).ok_or(Failure::Usage)
}

fn tell<S: Source>(alloc: Global, source: &S, columns: Option<Columns>) -> Result<String, Failure>
    ensures { MatchResult result (λ t. Tells columns (S.meaning source.now) (string_bytes t)) (Fails (S.meaning source.now)) }
{
    source.check()?;
    Ok(text::describe(alloc, source, columns)?)
}

fn tell_layered<S: Source + Drop>(
    alloc: Global,
    source: S,
    layer: Option<Layer>,
    columns: Option<Columns>,
) -> Result<String, Failure>
    ensures { MatchResult result (λ t. Tells columns (layered layer (S.meaning source)) (string_bytes t)) (Fails (layered layer (S.meaning source))) }
{
    match layer {
        None => tell(alloc, &source, columns),
        Some(l) => tell(alloc, &Reading::new(source, l.bit, l.mask), columns),
    }
}

// The text of the graph that the bytes tell, as the request asks; or the fault.
fn answer(alloc: Global, request: Request, bytes: &[u8]) -> Result<String, Failure>
    ensures { MatchResult result (λ t. Tells (columns_asked request bytes.now) (asked request bytes.now) (string_bytes t)) (Fails (asked request bytes.now)) }
{
    match request.form {
        Form::Table => {
            let table = Table::new(bytes);
            tell_layered(alloc, table, request.layer, Some(table.columns()))
        }
        Form::Rules => tell_layered(alloc, RuleList::new(bytes), request.layer, None),
    }
}

fn run(rt: &(impl Env + AllocGlobal + Print), input: impl Read + Drop) -> Result<(), Failure> {
    let request = read_request(rt)?;
    let bytes = read_input(rt.alloc(), input)?;
    let text = answer(rt.alloc(), request, &bytes)?;
    print!(rt; "{text}")?;
    Ok(())
}

fn main(rt: HostRuntime) -> ExitCode {
    finish(&rt, "describe", run(&rt, rt.stdin()))
}
