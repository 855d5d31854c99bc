use crate::{Functions, FunctionsFault, HeightSteps, SharedEnd};
use edge_words::Word;
use exp_sums::{Dir, Sizes, Term};
use std::test::Fail;
use unfolding::Unfolding;

fn term(m: i32, n: i32, c: i64) -> Term {
    Term {
        dir: Dir { m, n },
        c,
    }
}

#[test]
fn tells_functions_of_123123(rt: HostRuntime) -> Result<(), Fail> {
    let word = Word::read(rt.alloc(), b"123123")?;
    let unfolding = Unfolding::of(rt.alloc(), &word)?;
    let functions = Functions::of(rt.alloc(), &unfolding)?;
    assert_eq!(rt; functions.letters(), 6);
    let terms = [
        term(0, 2, 3),
        term(2, -2, 1),
        term(2, 0, 2),
        term(2, 2, -3),
        term(4, 0, -1),
        term(4, 2, 1),
    ];
    let first = functions.function(rt.alloc(), 1, 1)?;
    assert!(rt; first.terms() == terms.as_slice());
    assert_eq!(rt; (functions.weight(1, 1), functions.reach(1, 1)), (11, 36));
    assert_eq!(rt; (functions.weight(1, 4), functions.reach(1, 4)), (15, 64));
    assert_eq!(rt; functions.bend(1, 1), 88);
    assert!(rt; functions.upper_height(1).terms() == terms.as_slice());
    assert!(rt; functions.lower_height(1).terms().is_empty());
    Ok(())
}

#[test]
fn refuses_121323(rt: HostRuntime) -> Result<(), Fail> {
    let word = Word::read(rt.alloc(), b"121323")?;
    let unfolding = Unfolding::of(rt.alloc(), &word)?;
    let refused = Functions::of(rt.alloc(), &unfolding).err();
    assert!(rt; refused == Some(FunctionsFault::NotTranslate));
    Ok(())
}

// With S = sin 2πx + sin 2πy − sin 2π(x + y) each function of 123123 is 2S times one of six factors. Three of these are
// 1 − cos 2πx, 1 − cos 2πy and 1 − cos 2π(x + y).
fn has_one_cosine(terms: &[Term]) -> bool {
    let form_1 = [
        term(0, 2, 3),
        term(2, -2, 1),
        term(2, 0, 2),
        term(2, 2, -3),
        term(4, 0, -1),
        term(4, 2, 1),
    ];
    let form_2 = [
        term(0, 2, 2),
        term(0, 4, -1),
        term(2, -2, -1),
        term(2, 0, 3),
        term(2, 2, -3),
        term(2, 4, 1),
    ];
    let form_3 = [
        term(0, 2, 3),
        term(2, 0, 3),
        term(2, 2, -2),
        term(2, 4, -1),
        term(4, 2, -1),
        term(4, 4, 1),
    ];
    terms == form_1.as_slice() || terms == form_2.as_slice() || terms == form_3.as_slice()
}

// The other three are 1 with two of the cosines taken away and the third added.
fn has_three_cosines(terms: &[Term]) -> bool {
    let form_4 = [
        term(0, 2, 2),
        term(0, 4, -1),
        term(2, 0, 2),
        term(2, 2, -4),
        term(2, 4, 2),
        term(4, 0, -1),
        term(4, 2, 2),
        term(4, 4, -1),
    ];
    let form_5 = [
        term(0, 2, 4),
        term(0, 4, 1),
        term(2, -2, 2),
        term(2, 0, 2),
        term(2, 2, -2),
        term(2, 4, -2),
        term(4, 0, -1),
        term(4, 4, 1),
    ];
    let form_6 = [
        term(0, 2, 2),
        term(0, 4, -1),
        term(2, -2, -2),
        term(2, 0, 4),
        term(2, 2, -2),
        term(4, 0, 1),
        term(4, 2, -2),
        term(4, 4, 1),
    ];
    terms == form_4.as_slice() || terms == form_5.as_slice() || terms == form_6.as_slice()
}

#[test]
fn tells_all_functions_of_123123(rt: HostRuntime) -> Result<(), Fail> {
    let word = Word::read(rt.alloc(), b"123123")?;
    let unfolding = Unfolding::of(rt.alloc(), &word)?;
    let functions = Functions::of(rt.alloc(), &unfolding)?;
    assert_eq!(rt; functions.letters(), 6);
    for k in 1..=6 {
        for l in 1..=6 {
            let function = functions.function(rt.alloc(), k, l)?;
            let terms = function.terms();
            let weight = functions.weight(k, l);
            assert!(rt;
                weight == 11 && has_one_cosine(terms) || weight == 15 && has_three_cosines(terms)
            );
        }
    }
    Ok(())
}

#[test]
fn keeps_sizes_of_123123(rt: HostRuntime) -> Result<(), Fail> {
    let word = Word::read(rt.alloc(), b"123123")?;
    let unfolding = Unfolding::of(rt.alloc(), &word)?;
    let mut functions = Functions::of(rt.alloc(), &unfolding)?;
    assert!(rt; functions.greatest_sizes().is_none() && functions.greatest_in_row(1).is_none());
    // Each edge shares one corner with the edge before it.
    assert_eq!(rt;
        functions.upper_edges().len() + functions.lower_edges().len(),
        7
    );
    let sizes = functions.sizes(1, 4);
    functions.keep_sizes(rt.alloc())?;
    assert!(rt; functions.sizes(1, 4) == sizes);
    let greatest = Sizes {
        weight: 15,
        reach: 64,
        bend: 192,
    };
    assert!(rt; functions.greatest_sizes() == Some(greatest));
    assert!(rt;
        functions
            .greatest_in_row(1)
            .is_some_and(|row| row.weight == 15)
    );
    Ok(())
}

// From the centres of its triangles the ends of the edges of 123123 are seen in seven directions: (-1, -1), and in turn
// (1, -1), (-1, -3), (-3, -3), (-3, -1), (-1, 1) and (1, 1). Four forms are not alike.
#[test]
fn steps_of_123123(rt: HostRuntime) -> Result<(), Fail> {
    let word = Word::read(rt.alloc(), b"123123")?;
    let unfolding = Unfolding::of(rt.alloc(), &word)?;
    let steps = HeightSteps::of(rt.alloc(), &unfolding)?;
    assert_eq!(rt; (steps.forms.len(), steps.steps.len()), (4, 6));
    let shared = [
        SharedEnd::Neither,
        SharedEnd::Upper,
        SharedEnd::Lower,
        SharedEnd::Upper,
        SharedEnd::Lower,
        SharedEnd::Upper,
    ];
    for (i, end) in shared.iter().enumerate() {
        assert!(rt; steps.steps[i].shared == *end);
    }
    Ok(())
}
