/// An entry of a dictionary among several: the number of its input and its number there, both from 0.
#[derive(Clone, Copy, Debug, Default, PartialEq, Eq)]
#[repr(C)]
pub struct Slot {
    pub input: u64,
    pub entry: u64,
}
