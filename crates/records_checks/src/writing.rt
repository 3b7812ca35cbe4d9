// The writer by example, and the longest record there and back.
use graph::State;
use patterns::kind::Kind;
use patterns::proposition::Proposition;
use records::verdict::Verdict;
use records::{Found, Heading, Record};
use std::alloc::Global;
use std::process::Abort;
use std::test::Fail;

fn heading(kind: Kind, verdict: Verdict, on: u16) -> Heading {
    Heading {
        kind,
        verdict,
        p: Proposition { on, off: 0 },
        q: Proposition { on: 2, off: 0 },
        depth: 65535,
    }
}

fn record<'a>(heading: Heading, stem: &'a [State], cycle: &'a [State]) -> Record<'a> {
    Record {
        heading,
        stem,
        cycle,
    }
}

// The number of the refusal, if there is one: the output is then as before.
fn refusal_of(
    rt: &impl Abort,
    alloc: Global,
    filing: Record<'_>,
    room: usize,
) -> Result<Option<u8>, Fail> {
    let mut out = vec![in alloc; 9u8; room]?;
    match writer::write(filing, &mut out) {
        Ok(_) => Ok(None),
        Err(refusal) => {
            assert!(rt; out == vec![in alloc; 9u8; room]?);
            Ok(Some(u8::from(refusal)))
        }
    }
}

#[test]
fn fields_that_do_not_stand(rt: HostRuntime) -> Result<(), Fail> {
    let alloc = rt.alloc();
    let always = heading(Kind::Always, Verdict::Kept, 1);
    assert_eq!(rt;
        refusal_of(&rt, alloc, record(always, &[], &[]), 99)?,
        Some(33)
    );
    let until = heading(Kind::Until, Verdict::Kept, 1);
    assert_eq!(rt;
        refusal_of(&rt, alloc, record(until, &[0], &[]), 99)?,
        Some(33)
    );
    assert_eq!(rt;
        refusal_of(&rt, alloc, record(until, &[], &[0]), 99)?,
        Some(33)
    );
    assert_eq!(rt;
        refusal_of(&rt, alloc, record(until, &[], &[]), 12)?,
        Some(35)
    );
    assert_eq!(rt; refusal_of(&rt, alloc, record(until, &[], &[]), 13)?, None);
    Ok(())
}

#[test]
fn lassos(rt: HostRuntime) -> Result<(), Fail> {
    let alloc = rt.alloc();
    let h = heading(Kind::LeadsTo, Verdict::Broken, 1);
    let stem = vec![in alloc; 1023u16; 5121]?;
    let cycle = vec![in alloc; 1023u16; 4097]?;
    assert_eq!(rt;
        refusal_of(&rt, alloc, record(h, &stem, &[0]), 20000)?,
        Some(33)
    );
    assert_eq!(rt;
        refusal_of(&rt, alloc, record(h, &[], &[]), 20000)?,
        Some(33)
    );
    assert_eq!(rt;
        refusal_of(&rt, alloc, record(h, &[], &cycle), 20000)?,
        Some(33)
    );
    assert_eq!(rt;
        refusal_of(&rt, alloc, record(h, &[1024], &[0]), 20000)?,
        Some(33)
    );
    assert_eq!(rt;
        refusal_of(&rt, alloc, record(h, &[0], &[0, 1024]), 0)?,
        Some(33)
    );
    assert_eq!(rt;
        refusal_of(&rt, alloc, record(h, &[0], &[0]), 20)?,
        Some(35)
    );
    assert_eq!(rt; refusal_of(&rt, alloc, record(h, &[0], &[0]), 21)?, None);
    Ok(())
}

#[test]
fn shortest(rt: HostRuntime) -> Result<(), Fail> {
    let mut out = [9u8; 9];
    let none = Proposition { on: 0, off: 0 };
    let heading = Heading {
        kind: Kind::Eventual,
        verdict: Verdict::Kept,
        p: none,
        q: Proposition {
            on: 0x0102,
            off: 0x0304,
        },
        depth: 0,
    };
    assert_eq!(rt; writer::write(record(heading, &[], &[]), &mut out)?, 7);
    assert!(rt; out == [0, 2, 1, 1, 2, 3, 4, 9, 9]);
    Ok(())
}

#[test]
fn longest(rt: HostRuntime) -> Result<(), Fail> {
    let alloc = rt.alloc();
    let h = heading(Kind::LeadsTo, Verdict::Broken, 1);
    let stem = vec![in alloc; 1023u16; 5120]?;
    let cycle = vec![in alloc; 1022u16; 4096]?;
    assert_eq!(rt;
        refusal_of(&rt, alloc, record(h, &stem, &cycle), 18448)?,
        Some(35)
    );
    let mut out = vec![in alloc; 0u8; 18449]?;
    assert_eq!(rt; writer::write(record(h, &stem, &cycle), &mut out)?, 18449);
    assert!(rt;
        out.starts_with(&[
            7, 5, 2, 0, 2, 0, 0, 0, 1, 0, 0, 255, 255, 20, 0, 16, 0, 3, 255,
        ],)
    );
    let mut stem_read = vec![in alloc; 0u16; 5120]?;
    let mut cycle_read = vec![in alloc; 0u16; 4096]?;
    let found = Found {
        heading: h,
        stem: 5120,
        cycle: 4096,
    };
    assert_eq!(rt; reader::read(&out, &mut stem_read, &mut cycle_read)?, found);
    assert!(rt; stem_read == stem);
    assert!(rt; cycle_read == cycle);
    Ok(())
}
