// Tests of the questions that a key's calls ask, and of what a refusal leaves.
#![tactic(auto)]

#[cfg(test)]
mod tests {
    use comparison::{compare, deal_key, evaluate};
    use expander::Seed;
    use group::{Group, Pair, Quad, Word};
    use key::{BoxNumber, KeyEnds, Roots, Row, Rows};
    use refusal::Refusal;
    use zero::Zero;

    const ROOT: Seed = Seed { bytes: [7; 16] };

    const ROOTS: Roots = Roots {
        zero: ROOT,
        one: ROOT,
    };

    fn row<G: Group>(element: G) -> Row<G> {
        Row {
            word: ROOT,
            left: true,
            right: true,
            element,
        }
    }

    // The number of a refusal, or 0.
    fn refused<T: Drop>(r: Result<T, Refusal>) -> u8 {
        r.err().map_or(0, |e| e.number())
    }

    fn deal_words(width: u8, threshold: u32, memory: &mut [Row<Word>]) -> u8 {
        refused(deal_key(
            &Zero,
            width,
            threshold,
            Word(1),
            ROOTS,
            &mut Rows::over(memory),
        ))
    }

    fn evaluate_words(width: u8, point: u32, memory: &mut [Row<Word>]) -> u8 {
        refused(evaluate(
            &Zero,
            BoxNumber::One,
            width,
            KeyEnds {
                root: ROOT,
                last: Word(1),
            },
            &Rows::over(memory),
            point,
        ))
    }

    fn compare_words(width: u8, threshold: u32, point: u32, memory: &mut [Row<Word>]) -> u8 {
        refused(compare(
            &Zero,
            &Zero,
            &Zero,
            width,
            threshold,
            Word(1),
            ROOTS,
            &mut Rows::over(memory),
            point,
        ))
    }

    #[test]
    fn the_first_no_decides(rt: HostRuntime) {
        let mut three = [row(Word(9)); 3];
        assert_eq!(rt; deal_words(0, 9, &mut three), 41);
        assert_eq!(rt; deal_words(33, 9, &mut three), 41);
        assert_eq!(rt; deal_words(2, 4, &mut three), 42);
        assert_eq!(rt; deal_words(2, 3, &mut three), 43);
        assert_eq!(rt; deal_words(4, 3, &mut three), 43);
        assert_eq!(rt; evaluate_words(0, 0, &mut three), 41);
        assert_eq!(rt; evaluate_words(3, 8, &mut three), 42);
        assert_eq!(rt; evaluate_words(2, 3, &mut three), 43);
        assert_eq!(rt; compare_words(3, 8, 0, &mut three), 42);
        assert_eq!(rt; compare_words(3, 7, 8, &mut three), 42);
        assert_eq!(rt; compare_words(4, 7, 7, &mut three), 43);
        assert_eq!(rt;
            three[0].element.0 ^ three[1].element.0 ^ three[2].element.0,
            9
        );
        assert_eq!(rt; deal_words(3, 7, &mut three), 0);
    }

    #[test]
    fn nine_words_are_too_many(rt: HostRuntime) {
        let quad: Quad = Quad::zero();
        let eight = Pair {
            left: quad,
            right: quad,
        };
        let nine = Pair {
            left: eight,
            right: Word(1),
        };
        let mut a = [row(eight); 2];
        let mut b = [row(nine); 2];
        assert_eq!(rt;
            refused(deal_key(&Zero, 2, 1, eight, ROOTS, &mut Rows::over(&mut a))),
            0
        );
        assert_eq!(rt;
            refused(deal_key(&Zero, 2, 1, nine, ROOTS, &mut Rows::over(&mut b))),
            44
        );
    }
}
