// The way of a hash down the directory's tree, as data. Its functions are in lib.rt.
ghost use Rattle.std.specs.Prelude.{◌≡◌, ◌≤◌};
ghost use Rattle.directory.specs.Tree.{node};

// Where a lookup stands on the hash's way.
#[derive(Clone, Copy)]
pub struct Way {
    pub(crate) hash: u32,
    pub(crate) index: u32,
    pub(crate) depth: u32,
    ghost limit: { depth ≤ 15 },
    ghost on: { index ≡ node hash depth },
}
