// The tables of the six watches, row by row.
#![tactic(auto)]

pub mod lent;

use graph::Word;
use judging::{judge, keeps};
use lent::Lent;
use patterns::any::AnyPattern;
use patterns::kind::Kind;
use patterns::proposition::Proposition;
use patterns::watch::{Pattern, Tint, Told};
#[cfg(test)]
use std::process::Abort;
use std::test::Fail;

// Bit 0 is P and bit 1 is Q.
fn picked(kind: Kind) -> AnyPattern {
    AnyPattern::new(
        kind,
        Proposition { on: 1, off: 0 },
        Proposition { on: 2, off: 0 },
    )
}

// What a watch answers at a mark to the words with neither, with P alone, with Q alone and with both.
#[cfg(test)]
fn row(
    rt: &impl Abort,
    kind: Kind,
    mark: u8,
    told: [Told; 4],
    tint: [Tint; 4],
) -> Result<(), Fail> {
    let pattern = picked(kind);
    for (word, (told, tint)) in (0..4).zip(told.iter().zip(&tint)) {
        assert_eq!(rt; pattern.step(mark, word), *told);
        assert_eq!(rt; pattern.tint(mark, word), *tint);
    }
    Ok(())
}

#[test]
fn rows_of_mark_0(rt: HostRuntime) -> Result<(), Fail> {
    let (kept, broken, m0, m1) = (Told::Kept, Told::Broken, Told::Mark(0), Told::Mark(1));
    let (calm, sore, relief) = (Tint::Calm, Tint::Sore, Tint::Relief);
    // A mark that is not below the count is treated as mark 0.
    for mark in [0, 2, 3, 255] {
        row(&rt, Kind::Always, mark, [broken, broken, m0, m0], [calm; 4])?;
        row(&rt, Kind::Eventual, mark, [m0, m0, kept, kept], [sore; 4])?;
        row(&rt, Kind::Until, mark, [broken, m0, kept, kept], [sore; 4])?;
        row(
            &rt,
            Kind::UntilStable,
            mark,
            [broken, m0, m1, m0],
            [sore, sore, calm, calm],
        )?;
        row(&rt, Kind::LeadsTo, mark, [m0, m1, m0, m0], [relief; 4])?;
        row(
            &rt,
            Kind::ConditionalStable,
            mark,
            [m0, m1, m0, m1],
            [calm; 4],
        )?;
    }
    Ok(())
}

#[test]
fn rows_of_mark_1(rt: HostRuntime) -> Result<(), Fail> {
    let (kept, broken, m0, m1) = (Told::Kept, Told::Broken, Told::Mark(0), Told::Mark(1));
    let (calm, sore) = (Tint::Calm, Tint::Sore);
    row(&rt, Kind::Always, 1, [broken, broken, m0, m0], [calm; 4])?;
    row(&rt, Kind::Eventual, 1, [m0, m0, kept, kept], [sore; 4])?;
    row(&rt, Kind::Until, 1, [broken, m0, kept, kept], [sore; 4])?;
    row(
        &rt,
        Kind::UntilStable,
        1,
        [broken, broken, m1, m1],
        [calm; 4],
    )?;
    row(&rt, Kind::LeadsTo, 1, [m1, m1, m0, m0], [sore; 4])?;
    row(
        &rt,
        Kind::ConditionalStable,
        1,
        [m1, m1, m1, m1],
        [sore, sore, calm, calm],
    )
}

#[test]
fn numbers(rt: HostRuntime) -> Result<(), Fail> {
    for n in 1..=6u8 {
        let kind = Kind::try_from(n)?;
        assert_eq!(rt; u8::from(kind), n);
        assert_eq!(rt; kind.has_first(), n > 2);
        assert_eq!(rt; picked(kind).kind(), kind);
    }
    assert!(rt; Kind::try_from(0).is_err() && Kind::try_from(7).is_err());
    Ok(())
}

#[test]
fn names(rt: HostRuntime) -> Result<(), Fail> {
    let names = [
        "always",
        "eventual",
        "until",
        "until-stable",
        "leads-to",
        "conditional-stable",
    ];
    for (n, name) in (1u8..).zip(names) {
        let kind: Kind = name.parse()?;
        assert_eq!(rt; u8::from(kind), n);
        assert_eq!(rt; kind.name(), name);
        assert_eq!(rt; format!(in rt.alloc(); "{kind}")?.as_str(), name);
    }
    assert!(rt; "Always".parse::<Kind>().is_err() && "until stable".parse::<Kind>().is_err());
    Ok(())
}

// Each pattern is kept by one lasso and broken by another, and a loop without words is refused.
#[test]
fn lassos(rt: HostRuntime) -> Result<(), Fail> {
    let none: [Word; 0] = [];
    for n in 1..=6u8 {
        let kind = Kind::try_from(n)?;
        let pattern = picked(kind);
        assert!(rt; keeps(&pattern, &[2, 3], &[2, 2])?);
        assert!(rt; !judge(&pattern, &[2, 3], &[2, 2])?);
        assert!(rt; !keeps(&pattern, &[1, 1], &[1, 0])?);
        assert!(rt; judge(&pattern, &[1, 1], &[1, 0])?);
        assert!(rt; judge(&pattern, &[1, 1], &none).is_err());
    }
    Ok(())
}

// A type with a lifetime is judged as the six are.
#[test]
fn lent_proposition(rt: HostRuntime) -> Result<(), Fail> {
    let q = Proposition { on: 2, off: 0 };
    let pattern = Lent { q: &q };
    assert!(rt; !judge(&pattern, &[2, 3], &[3, 2])?);
    assert!(rt; judge(&pattern, &[2, 3], &[3, 1])?);
    Ok(())
}
