// An input as a call takes it that has fewer bits: the low ones. Three functions of a line are plainer than a trait with three impls.

pub(crate) fn byte(input: u64) -> u8 {
    (input % 0x100) as u8
}

pub(crate) fn half(input: u64) -> u16 {
    (input % 0x1_0000) as u16
}

pub(crate) fn word(input: u64) -> u32 {
    (input % 0x1_0000_0000) as u32
}
