ghost use Rattle.std.specs.Prelude.{◌≡◌, ◌≤◌, length};
ghost use Rattle.archive.specs.Packed.{rows_in};

/// Rows of fifteen bytes, one after another, in memory that the user lends: as many as fit, 65,536 at most.
// The count stands beside the memory, which no vector can own: it is the user's.
#[derive(Drop)]
pub struct ByteArchive<'a> {
    memory: &'a mut [u8],
    used: usize,
    ghost whole: { length (rows_in used memory.now) ≡ used },
    ghost few: { used ≤ 65536 },
}

mod meaning;
