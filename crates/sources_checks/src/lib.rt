// Worked examples of the sources, and one input for each cause of a fault.
#![tactic(auto)]

#[cfg(test)]
mod tests {
    use graph::fault::{Cause, Fault};
    use graph::fields::pair_at;
    use graph::source::Source;
    use meanings::Columns;
    use reading::Reading;
    use rules::RuleList;
    use std::test::Fail;
    use table::Table;

    // Four states, five arrows.
    const G: [u8; 31] = [
        1, 0, 4, 0, 5, 0, 0, 0, 1, 0, 4, 0, 2, 0, 2, 0, 3, 0, 4, 0, 5, 0, 1, 0, 2, 0, 3, 0, 2, 0, 3,
    ];

    fn at(cause: Cause, place: usize) -> Result<(), Fault> {
        Err(Fault::new(cause, place))
    }

    fn table_of(bytes: &[u8]) -> Result<(), Fault> {
        Table::new(bytes).check()
    }

    fn rules_of(bytes: &[u8]) -> Result<(), Fault> {
        RuleList::new(bytes).check()
    }

    #[test]
    fn pairs(rt: HostRuntime) {
        assert_eq!(rt; pair_at(&G, 1), 4);
        assert_eq!(rt; (pair_at(&G, 30), pair_at(&G, 31)), (0x300, 0));
        assert_eq!(rt; pair_at(&G, usize::MAX), 0);
    }

    #[test]
    fn table_tells(rt: HostRuntime) {
        let t = Table::new(&G);
        assert_eq!(rt; t.check(), Ok(()));
        assert_eq!(rt; (t.states(), t.width()), (4, 5));
        assert_eq!(rt;
            t.columns(),
            Columns {
                words: true,
                initials: false,
            }
        );
        assert_eq!(rt;
            (t.initial(0), t.initial(1), t.initial(4)),
            (true, false, false)
        );
        assert_eq!(rt; (t.word(1), t.word(2), t.word(3), t.word(4)), (1, 4, 2, 0));
        assert_eq!(rt; (t.degree(0), t.degree(3), t.degree(4)), (2, 1, 0));
        assert_eq!(rt;
            (t.arrow(0, 0), t.arrow(0, 1), t.arrow(0, 2)),
            (Some(1), Some(2), None)
        );
        assert_eq!(rt;
            (t.arrow(1, 0), t.arrow(3, 0), t.arrow(4, 0)),
            (Some(3), Some(3), None)
        );
    }

    // The initial column alone: states 0 and 2 of three.
    #[test]
    fn initial_column(rt: HostRuntime) {
        let b = [2, 0, 3, 0, 3, 5, 0, 1, 0, 2, 0, 3, 0, 0, 0, 1, 0, 2];
        let t = Table::new(&b);
        assert_eq!(rt; t.check(), Ok(()));
        assert_eq!(rt;
            (t.initial(0), t.initial(1), t.initial(2)),
            (true, false, true)
        );
        assert_eq!(rt; t.word(1), 0);
    }

    #[test]
    fn both_columns(rt: HostRuntime) {
        let b = [3, 0, 2, 0, 2, 0, 7, 1, 0, 2, 0, 1, 0, 2, 0, 1, 0, 0];
        let t = Table::new(&b);
        assert_eq!(rt; t.check(), Ok(()));
        assert_eq!(rt; (t.initial(0), t.initial(1)), (false, true));
        assert_eq!(rt; (t.word(0), t.word(1)), (7, 256));
        assert_eq!(rt; (t.arrow(0, 0), t.arrow(1, 0)), (Some(1), Some(0)));
    }

    #[test]
    fn table_header_faults(rt: HostRuntime) {
        assert_eq!(rt; table_of(&[]), at(Cause::Short, 0));
        assert_eq!(rt; table_of(&[255]), at(Cause::MapBit, 0));
        assert_eq!(rt; table_of(&[1, 0]), at(Cause::Short, 2));
        assert_eq!(rt; table_of(&[1, 0, 0]), at(Cause::Range, 1));
        assert_eq!(rt; table_of(&[1, 4, 1]), at(Cause::Range, 1));
        assert_eq!(rt; table_of(&[1, 4, 0]), at(Cause::Short, 3));
        assert_eq!(rt; table_of(&[1, 4, 0, 64, 1]), at(Cause::Range, 3));
        assert_eq!(rt; table_of(&[1, 0, 1, 0, 1, 9]), at(Cause::Short, 6));
    }

    #[test]
    fn table_body_faults(rt: HostRuntime) {
        assert_eq!(rt; table_of(&[2, 0, 3, 0, 3, 8]), at(Cause::Range, 5));
        assert_eq!(rt;
            table_of(&[0, 0, 2, 0, 2, 0, 1, 0, 1]),
            at(Cause::RowEnd, 7)
        );
        assert_eq!(rt; table_of(&[0, 0, 1, 0, 2, 0, 1]), at(Cause::RowEnd, 5));
        assert_eq!(rt;
            table_of(&[0, 0, 1, 0, 1, 0, 1, 0, 1]),
            at(Cause::Target, 7)
        );
        assert_eq!(rt; table_of(&[0, 0, 1, 0, 1, 0, 1, 0]), at(Cause::Short, 8));
        assert_eq!(rt;
            table_of(&[0, 0, 1, 0, 1, 0, 1, 0, 0, 7]),
            at(Cause::LeftOver, 9)
        );
    }

    // As many states as there can be, each with an arrow to state 0.
    #[test]
    fn most_states(rt: HostRuntime) -> Result<(), Fail> {
        let mut b = [0, 4, 0, 4, 0].to_vec(rt.alloc())?;
        for i in 1u16..1025 {
            b.extend_from_slice(&i.to_be_bytes())?;
        }
        for _ in 0u16..1024 {
            b.extend_from_slice(&[0, 0])?;
        }
        let t = Table::new(&b);
        assert_eq!(rt; t.check(), Ok(()));
        assert_eq!(rt;
            (t.states(), t.degree(1023), t.arrow(1023, 0)),
            (1024, 1, Some(0))
        );
        Ok(())
    }

    #[test]
    fn rules_tell(rt: HostRuntime) {
        let r = RuleList::new(&[1, 2, 1, 0, 1, 5, 0, 1, 0, 2]);
        assert_eq!(rt; r.check(), Ok(()));
        assert_eq!(rt; (r.states(), r.width()), (4, 1));
        assert_eq!(rt; (r.initial(0), r.initial(1)), (false, true));
        assert_eq!(rt; (r.word(3), r.word(4)), (3, 0));
        assert_eq!(rt;
            (r.arrow(0, 0), r.arrow(1, 0), r.arrow(1, 1)),
            (Some(0), Some(3), None)
        );
        assert_eq!(rt; (r.degree(2), r.degree(4)), (1, 0));
    }

    // A rule with all four masks, and one that applies everywhere: two arrows from state 1.
    #[test]
    fn all_masks(rt: HostRuntime) {
        let r = RuleList::new(&[0, 3, 2, 15, 0, 1, 0, 2, 0, 4, 0, 1, 4, 0, 2]);
        assert_eq!(rt; r.check(), Ok(()));
        assert_eq!(rt; (r.states(), r.width(), r.initial(0)), (8, 2, true));
        assert_eq!(rt; (r.degree(1), r.degree(3)), (2, 1));
        assert_eq!(rt;
            (r.arrow(1, 0), r.arrow(1, 1), r.arrow(3, 0)),
            (Some(4), Some(3), Some(3))
        );
    }

    #[test]
    fn rules_faults(rt: HostRuntime) {
        assert_eq!(rt; rules_of(&[2]), at(Cause::MapBit, 0));
        assert_eq!(rt; rules_of(&[0, 11]), at(Cause::Range, 1));
        assert_eq!(rt; rules_of(&[0, 2, 65]), at(Cause::Range, 2));
        assert_eq!(rt; rules_of(&[1, 2, 0, 0, 4]), at(Cause::Range, 3));
        assert_eq!(rt; rules_of(&[1, 2, 0, 0]), at(Cause::Short, 4));
        assert_eq!(rt; rules_of(&[0, 2, 1, 16]), at(Cause::MapBit, 3));
        assert_eq!(rt; rules_of(&[0, 2, 1, 1, 0]), at(Cause::Short, 5));
        assert_eq!(rt; rules_of(&[0, 2, 2, 0, 1, 0, 4]), at(Cause::Mask, 4));
        assert_eq!(rt; rules_of(&[0, 2, 1, 12, 0, 1, 0, 1]), at(Cause::Mask, 3));
        assert_eq!(rt; rules_of(&[0, 2, 0, 9]), at(Cause::LeftOver, 3));
    }

    // A fault from below goes first, one layer higher each time.
    #[test]
    fn readings(rt: HostRuntime) {
        let read = Reading::new(Table::new(&G), 3, 6);
        assert_eq!(rt; (read.word(0), read.word(2), read.word(3)), (0, 12, 10));
        let own = Reading::new(Table::new(&G), 16, 6);
        assert_eq!(rt; own.check(), at(Cause::Range, 0));
        assert_eq!(rt; (own.states(), own.arrow(0, 0)), (0, None));
        let two = Reading::new(Reading::new(Table::new(&[255]), 16, 6), 16, 6);
        assert_eq!(rt;
            two.check(),
            Err(Fault {
                cause: Cause::MapBit,
                place: 0,
                height: 2,
            })
        );
    }
}
