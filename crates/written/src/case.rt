// One generated set of tables, written by both into buffers of exactly the file's length, of three bytes more, and of one
// byte less.
use super::bend::bend;
use super::both::write_both;
use super::draw::draw;
use super::score::Score;
use random::Random;

// Each is asked for what the reference's answers.
pub(crate) fn case(random: &mut Random, score: &mut Score) {
    let mut drawn = draw(random);
    bend(&mut drawn, random);
    let n = drawn.n as usize;
    let k = drawn.k as usize;
    let tables = drawn.space.first(n, k);
    let length = 21 + n * 8 + k * 68;
    for room in [length, length + 3, length - 1] {
        let both = write_both(tables, room);
        score.note(both, both.theirs);
    }
}
