// The records of one kind.
ghost use Rattle.std.specs.Prelude.{◌≡◌};
ghost use Rattle.blocks.specs.Blocks.{first_block, count_of, record_no};

// Where the records of a kind begin in a file, and how many there are.
#[derive(Clone, Copy)]
pub(crate) struct Records<'a, const KIND: u8> {
    pub(crate) file: &'a [u8],
    pub(crate) first: usize,
    pub(crate) count: usize,
    ghost first_is: { first ≡ first_block file.now KIND },
    ghost count_is: { count ≡ count_of file.now KIND },
}

impl<'a, const KIND: u8> Records<'a, KIND> {
    // Those of the file.
    pub(crate) fn of(file: &'a [u8]) -> Self
        ensures { result.file.now ≡ file.now }
    {
        Records {
            file,
            first: blocks::first_block(file, KIND),
            count: blocks::count_of(file, KIND),
        }
    }

    // Record j; nothing past the last block.
    pub(crate) fn get(&self, j: usize) -> &'a [u8]
        ensures { result.now ≡ record_no self.now.file.now KIND j }
    {
        blocks::record_from(self.file, self.first, j)
    }
}
