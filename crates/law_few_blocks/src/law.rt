ghost use Rattle.law_few_blocks.specs.Few.{FewBlocks};

/// The law of few blocks: of each book of at most 8,388,608 bytes fewer than 2^32 blocks are set. Does nothing.
pub fn few_blocks()
    ensures { FewBlocks }
{}
