// The reader by example.
use patterns::kind::Kind;
use patterns::proposition::Proposition;
use records::verdict::Verdict;
use records::{Found, Heading};
use std::alloc::Global;
use std::process::Abort;
use std::test::Fail;

// The number of the refusal, if there is one, with lists of these lengths: they are then as before.
fn refusal_with(
    rt: &impl Abort,
    alloc: Global,
    lengths: (usize, usize),
    bytes: &[u8],
) -> Result<Option<u8>, Fail> {
    let mut stem = vec![in alloc; 9u16; lengths.0]?;
    let mut cycle = vec![in alloc; 9u16; lengths.1]?;
    match reader::read(bytes, &mut stem, &mut cycle) {
        Ok(_) => Ok(None),
        Err(refusal) => {
            assert!(rt; stem == vec![in alloc; 9u16; lengths.0]?);
            assert!(rt; cycle == vec![in alloc; 9u16; lengths.1]?);
            Ok(Some(u8::from(refusal)))
        }
    }
}

// The same with lists that are long enough.
fn refusal_of(rt: &impl Abort, alloc: Global, bytes: &[u8]) -> Result<Option<u8>, Fail> {
    refusal_with(rt, alloc, (5120, 4096), bytes)
}

#[test]
fn lists_too_short(rt: HostRuntime) -> Result<(), Fail> {
    let alloc = rt.alloc();
    assert_eq!(rt; refusal_with(&rt, alloc, (5119, 4096), &[])?, Some(28));
    assert_eq!(rt; refusal_with(&rt, alloc, (5120, 4095), &[])?, Some(28));
    assert_eq!(rt; refusal_with(&rt, alloc, (5120, 4096), &[])?, Some(31));
    Ok(())
}

#[test]
fn map_pattern_and_verdict(rt: HostRuntime) -> Result<(), Fail> {
    let cases: [(&[u8], u8); 11] = [
        (&[], 31),
        (&[8], 32),
        (&[1], 31),
        (&[1, 0], 33),
        (&[1, 7], 33),
        (&[1, 5], 31),
        (&[1, 5, 3], 33),
        (&[0, 3, 0], 32),
        (&[1, 2, 0], 32),
        (&[1, 5, 2], 32),
        (&[5, 5, 1], 32),
    ];
    for (bytes, number) in cases {
        assert_eq!(rt; refusal_of(&rt, rt.alloc(), bytes)?, Some(number));
    }
    Ok(())
}

#[test]
fn propositions_and_depth(rt: HostRuntime) -> Result<(), Fail> {
    let cases: [(&[u8], u8); 5] = [
        (&[1, 5, 0, 0, 2, 0], 31),
        (&[1, 5, 0, 0, 2, 0, 0, 0, 1, 0], 31),
        (&[3, 5, 0, 0, 2, 0, 0, 0, 1, 0, 0, 0], 31),
        (&[3, 5, 0, 0, 2, 0, 0, 0, 1, 0, 0, 0, 0], 33),
        (&[1, 5, 0, 0, 2, 0, 0, 0, 1, 0, 0, 9], 34),
    ];
    for (bytes, number) in cases {
        assert_eq!(rt; refusal_of(&rt, rt.alloc(), bytes)?, Some(number));
    }
    Ok(())
}

// Behind map, pattern, verdict and Q come stem length, loop length, stem and loop.
#[test]
fn lassos(rt: HostRuntime) -> Result<(), Fail> {
    let cases: [(&[u8], u8); 10] = [
        (&[4, 1, 2, 0, 2, 0, 0, 20], 31),
        (&[4, 1, 2, 0, 2, 0, 0, 20, 1], 33),
        (&[4, 1, 2, 0, 2, 0, 0, 20, 0, 0], 31),
        (&[4, 1, 2, 0, 2, 0, 0, 20, 0, 0, 0], 33),
        (&[4, 1, 2, 0, 2, 0, 0, 20, 0, 16, 1], 33),
        (&[4, 1, 2, 0, 2, 0, 0, 0, 1, 0, 1, 4], 31),
        (&[4, 1, 2, 0, 2, 0, 0, 0, 1, 0, 1, 4, 0], 33),
        (&[4, 1, 2, 0, 2, 0, 0, 0, 1, 0, 1, 3, 255, 4], 31),
        (&[4, 1, 2, 0, 2, 0, 0, 0, 1, 0, 1, 3, 255, 4, 0], 33),
        (&[4, 1, 2, 0, 2, 0, 0, 0, 1, 0, 1, 3, 255, 3, 254, 0], 34),
    ];
    for (bytes, number) in cases {
        assert_eq!(rt; refusal_of(&rt, rt.alloc(), bytes)?, Some(number));
    }
    Ok(())
}

#[test]
fn shortest(rt: HostRuntime) -> Result<(), Fail> {
    let alloc = rt.alloc();
    let mut stem = vec![in alloc; 9u16; 5120]?;
    let mut cycle = vec![in alloc; 9u16; 4096]?;
    let none = Proposition { on: 0, off: 0 };
    let heading = Heading {
        kind: Kind::Always,
        verdict: Verdict::Open,
        p: none,
        q: none,
        depth: 0,
    };
    let found = Found {
        heading,
        stem: 0,
        cycle: 0,
    };
    assert_eq!(rt;
        reader::read(&[0, 1, 0, 0, 0, 0, 0], &mut stem, &mut cycle)?,
        found
    );
    assert!(rt; stem == vec![in alloc; 9u16; 5120]?);
    assert!(rt; cycle == vec![in alloc; 9u16; 4096]?);
    Ok(())
}

// Every field stands. The lists hold stem and loop at their fronts, and behind them what they held.
#[test]
fn every_field(rt: HostRuntime) -> Result<(), Fail> {
    let alloc = rt.alloc();
    let mut stem = vec![in alloc; 9u16; 5120]?;
    let mut cycle = vec![in alloc; 9u16; 4096]?;
    let bytes = [
        7, 6, 2, 1, 2, 3, 4, 5, 6, 7, 8, 1, 0, 0, 2, 0, 1, 0, 7, 3, 255, 2, 1,
    ];
    let heading = Heading {
        kind: Kind::ConditionalStable,
        verdict: Verdict::Broken,
        p: Proposition {
            on: 0x0506,
            off: 0x0708,
        },
        q: Proposition {
            on: 0x0102,
            off: 0x0304,
        },
        depth: 256,
    };
    let found = Found {
        heading,
        stem: 2,
        cycle: 1,
    };
    assert_eq!(rt; reader::read(&bytes, &mut stem, &mut cycle)?, found);
    assert!(rt; stem.starts_with(&[7, 1023, 9, 9]));
    assert!(rt; cycle.starts_with(&[513, 9, 9]));
    Ok(())
}
