// The size of what frames give. The contracts name the same in specs/Sizes.antt: a constant of the language is not seen there.
use rules::BLOCK_MAX;

// The bytes of the longest result, a state and a block.
pub const RESULT_MAX: usize = 1 + BLOCK_MAX;
