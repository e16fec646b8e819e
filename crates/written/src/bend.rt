// Damage to one number of the tables, which mostly breaks a rule.
ghost use Rattle.std.specs.Prelude.{◌<◌};

use super::draw::Drawn;
use random::Random;

// What a number is changed by: one up or down, and what lies above one, two or three bytes.
const BY: [u32; 6] = [1, 4294967295, 8, 256, 65536, 16777216];

// A number of one of the first n rows.
fn bend_row<const N: usize>(rows: &mut [[u32; N]], n: u32, random: &mut Random)
    requires { 0 < N }
{
    let i = random.below(n) as usize;
    let p = random.next() as usize % N;
    let by = random.pick_or_default(&BY);
    if i < rows.len() {
        rows[i][p] = rows[i][p].wrapping_add(by);
    }
}

// One set of tables in three is damaged.
pub(crate) fn bend(drawn: &mut Drawn, random: &mut Random) {
    match random.below(6) {
        0 => bend_row(&mut drawn.space.code, drawn.n, random),
        1 => bend_row(&mut drawn.space.doors, drawn.k, random),
        _ => {}
    }
}
