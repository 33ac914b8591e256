// A production that is cut off after any byte. The tests of the session have their own: they drive another call, over
// another table.
use crate::expect::*;
use std::alloc::AllocGlobal;
use std::process::Abort;
use std::test::Fail;
use texts::*;

const CLASS: &[u8] = b"(literalize row id state)";

// Its first words begin at 0, 1, 3 and 8.
const PRODUCTION: &[u8] =
    b"(p rule (row ^id <v> ^state << sown bare >>) - (row ^id > <v>) --> (modify 1 ^state bare) (make row ^id -1) (remove 1) (halt))";

// The place of a word, and the number by which a beginning of it is refused that has at least so many bytes and fewer
// than so many.
type Wrong = (usize, usize, usize, u8);

// A beginning of a class or an attribute is another name, and one of an action's head is another head. `<` and `<v`
// cannot stand behind `>`. `-` is taken in place of `-->`, but `--` is not. `-` is no value. All other beginnings are
// taken.
const WRONG: [Wrong; 15] = [
    (9, 1, 3, 3),
    (14, 1, 2, 3),
    (22, 1, 5, 3),
    (48, 1, 3, 3),
    (53, 1, 2, 3),
    (58, 1, 3, 2),
    (63, 2, 3, 2),
    (68, 1, 6, 2),
    (78, 1, 5, 3),
    (91, 1, 4, 2),
    (96, 1, 3, 3),
    (101, 1, 2, 3),
    (104, 1, 2, 2),
    (109, 1, 6, 2),
    (120, 1, 4, 2),
];

// The refusal of the production where it is cut off: at the end of the text, unless the word that was cut is itself
// wrong.
fn refusal_of(cut: usize) -> (u8, usize) {
    WRONG
        .iter()
        .find(|(start, shortest, whole, _)| {
            (*shortest..*whole).contains(&cut.saturating_sub(*start))
        })
        .map_or((2, cut), |(start, _, _, number)| (*number, *start))
}

fn expect_cuts(rt: &(impl Abort + AllocGlobal), production: &[u8]) -> Result<(), Fail> {
    let heap = rt.alloc();
    for cut in 2..production.len() {
        let text = joined(heap, CLASS, &production[0..cut])?;
        let (number, place) = refusal_of(cut);
        expect_refused(rt, &text, number, place.saturating_add(CLASS.len()))?;
    }
    Ok(())
}

#[test]
fn cut_off(rt: HostRuntime) -> Result<(), Fail> {
    let heap = rt.alloc();
    let whole = joined(heap, CLASS, PRODUCTION)?;
    expect_taken(&rt, &whole, 1)?;
    expect_cuts(&rt, PRODUCTION)
}
