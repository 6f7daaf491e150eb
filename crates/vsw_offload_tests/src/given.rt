//! A rows file of one port with one row, typed byte by byte from the table of docs/FORMATS.md: of queries from 10.0.0.5, port 1234, to
//! 10.0.0.9, port 53, which pass as they are, without an end.

/// Bytes that aren't 0, by their places.
const BYTES: [(usize, u8); 39] = [
    (0, 0x56),
    (1, 0x53),
    (2, 0x57),
    (3, 0x52),
    (4, 0x4f),
    (5, 0x57),
    (6, 0x53),
    (7, 0x31),
    (8, 1),
    (12, 1),
    (16, 2),
    (21, 1),
    (26, 1),
    (30, 0x31),
    (31, 0x11),
    (33, 0x08),
    (34, 0xd2),
    (35, 0x04),
    (36, 0x35),
    (46, 0x99),
    (51, 2),
    (54, 1),
    (59, 2),
    (94, 9),
    (97, 10),
    (98, 5),
    (101, 10),
    (166, 0xff),
    (167, 0xff),
    (168, 0xff),
    (169, 0xff),
    (170, 0xff),
    (171, 0xff),
    (172, 0xff),
    (173, 0xff),
    (174, 3),
    (182, 8),
    (206, 8),
    (230, 8),
];

/// The file.
pub fn file() -> [u8; 614] {
    let mut bytes = [0; 614];
    for (place, byte) in BYTES {
        if place < 614 {
            bytes[place] = byte;
        }
    }
    bytes
}

/// The file with another byte at a place.
pub fn file_with(place: usize, byte: u8) -> [u8; 614] {
    let mut bytes = file();
    if place < 614 {
        bytes[place] = byte;
    }
    bytes
}

/// The words of its row.
pub fn row() -> [u64; 73] {
    let mut words = [0; 73];
    words[0] = 0x0035_04d2_0800_1131;
    words[2] = 0x0200_0000_0099;
    words[3] = 0x0200_0000_0001;
    words[8] = 0x0a00_0005_0a00_0009;
    words[17] = 0xffff_ffff_ffff_ffff;
    words[18] = 3;
    words[19] = 8;
    words[22] = 8;
    words[25] = 8;
    words
}
