// Tables with known answers, group by group: how many there are, and how many each writer answers as documents 01 and 02
// say.
use super::score::Score;
use super::{change, limit, sample};
use std::io;

// The program `outcomes` has its like.
fn group<T, F: Fn(&mut Score, &T)>(
    rt: &impl Print,
    words: &str,
    rows: &[T],
    check: F,
) -> io::Result<()>
    requires { F.IsAlwaysCallable check }
{
    let mut score = Score::default();
    for row in rows {
        check(&mut score, row);
    }
    println!(rt; "{words}, as documents 01 and 02 say: {score}")
}

pub(crate) fn groups(rt: &impl Print) -> io::Result<()> {
    group(rt, "the loop", &[189, 190, 191], sample::loops)?;
    group(
        rt,
        "counts, and space for the file",
        &limit::counts(),
        limit::limits,
    )?;
    group(rt, "layouts", &change::layouts(), change::changes)?;
    group(rt, "instructions", &change::instructions(), change::changes)?;
    group(rt, "doors", &change::doors(), change::changes)?;
    group(rt, "two faults at once", &limit::orders(), limit::limits)
}
