// Claims that are worked out by both implementations, as ticket 3 of document 02 has it.
use super::answer::Verdict;
use super::build::{File, FileIn};
use super::device::Device;
use super::side::Side;
use super::tally::Worked;

// Whether this is the answer, and these the bytes afterwards.
pub(crate) fn works_out<const N: usize>(
    device: Device,
    side: Side,
    given: &FileIn<N>,
    answer: Verdict,
    after: &FileIn<N>,
) -> bool {
    let mut file = *given;
    side.work_out(device, file.as_mut_slice()) == answer && file == *after
}

// The file is compared as the reference leaves it. One that is accepted has its claims: verify accepts it, and working
// them out again changes nothing.
pub(crate) fn compare(worked: &mut Worked, given: &File) -> File {
    let mut after = *given;
    let answer = Side::Theirs.work_out(Device::Box, after.as_mut_slice());
    let alike = works_out(Device::Box, Side::Ours, given, answer, &after);
    worked.verdicts.count(answer, alike);
    if answer.is_ok() {
        worked.accepted(
            Side::both(|side| side.verify(Device::Box, after.as_slice()) == answer),
            Side::both(|side| works_out(Device::Box, side, &after, answer, &after)),
        );
    } else {
        worked.refused(after == *given)
    }
    after
}
