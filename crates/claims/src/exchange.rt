// Claims in the file's bytes exchanged with those of the table. Exchanged twice, both are as they were.
ghost use Rattle.std.specs.Prelude.{◌*◌, ◌≤◌, length};
ghost use Rattle.claims.specs.Exchanges.{Exchanged};

use crate::entry::Row;
use ranges::knowledge;
use reader::target;

// The claims of the direct ones among the targets that the table has rows for. (That there are few is asked here too: see sweep.)
pub(crate) fn exchange(targets: &mut [u8], rows: &mut [Row])
    requires { (length rows.old ≤ 256) × (68 * length rows.old ≤ length targets.old) }
    ensures { Exchanged (length rows.old) targets.old rows.old targets.new rows.new }
{
    for (j, row) in rows.iter_mut().enumerate() {
        let number = j as u32;
        if !target::is_indirect(targets, number) {
            let came = target::claim_in(targets, number);
            let claim = row.claim.unwrap_or(knowledge::unknown());
            writer::target::write_claim(targets, target::target_start(number), claim);
            row.claim = Some(came);
        }
    }
}
