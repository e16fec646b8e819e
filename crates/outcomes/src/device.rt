// The devices of ticket 8 of document 02, which have the limits that each implementation gives them; and others.
#[derive(Clone, Copy)]
pub enum Device {
    Box,
    Plate,
    // How many instructions and doors it holds.
    Other(u32, u32),
}
