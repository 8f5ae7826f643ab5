ghost use Rattle.std.specs.Prelude.{◌≡◌, ◌≤◌, length};

use stages::stage::Stage;

// A recipe: a table of at most 16 stages. Past `len` stands nothing of meaning.
// It is an array with its length beside it, since a recipe is copied and takes no memory from a heap.
#[derive(Clone, Copy)]
pub struct Recipe {
    pub(crate) stages: [Stage; 16],
    pub(crate) len: usize,
    ghost full: { length stages ≡ 16 },
    ghost short: { len ≤ 16 },
}
