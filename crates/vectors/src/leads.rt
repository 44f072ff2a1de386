/// Strings with their first eight bytes as a number, written out by hand.
pub static LEADS: &[(&str, u64)] = &[
    ("", 0),
    ("\0", 0),
    ("a", 0x6100_0000_0000_0000),
    ("ab", 0x6162_0000_0000_0000),
    ("a\0b", 0x6100_6200_0000_0000),
    ("\u{7f}", 0x7f00_0000_0000_0000),
    ("\u{ff}", 0xc3bf_0000_0000_0000),
    ("abcdefg", 0x6162_6364_6566_6700),
    ("abcdefgh", 0x6162_6364_6566_6768),
    ("abcdefghi", 0x6162_6364_6566_6768),
    ("\0abcdefgh", 0x0061_6263_6465_6667),
    ("prop_crate", 0x7072_6f70_5f63_7261),
    ("prop_crate_2", 0x7072_6f70_5f63_7261),
];
