// What the reader hands to machine, verifier and those who work out claims.
ghost use Rattle.reader.specs.Loading.{Loaded};

use model::{Contents, Layout};

// A module whose file keeps 1 to 7, but perhaps for the order of claims' ends: its layout, its code and its targets, which are parts of
// the file, and how many instructions and targets these are (the lengths of the parts are in bytes).
#[derive(Clone, Copy)]
pub struct Module<'a> {
    pub layout: Layout,
    pub code: &'a [u8],
    pub targets: &'a [u8],
    pub held: Contents,
    pub ghost loaded: { ∥ Loaded layout code.now targets.now held.instructions held.targets ∥₁ },
}
