// Numbers far past those of any item, string or record: the first of more than 32 bits, and the last of 64.
pub const FAR: usize = 0x1_0000_0000;

pub const LAST: usize = usize::MAX;
