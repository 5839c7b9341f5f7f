//! The practice sheet: the smallest grammar with a loop, a list of words.

/// Productions 0 (nothing) and 1 (a list and a word), states 0 to 2; a record a line.
pub(crate) const PRACTICE: &[u8; 320] = b"\
    A\x01\0\0\x03\0\0\0\0\0\0\0\0\0\0\0\
    A\x01\x01\0\x01\x02\0\0\0\0\0\0\0\0\0\0\
    D\0\0\0\0\0\0\0\0\0\0\0\0\0\0\0\
    D\x02\0\0\x01\0\0\0\0\0\0\0\0\0\0\0\
    G\0\0\0\x01\0\0\0\0\0\0\0\0\0\0\0\
    I\0\0\0\0\0\0\0\0\0\0\0\0\0\0\x03\
    I\0\x01\0\0\0\0\0\0\0\0\0\0\0\0\x03\
    I\0\xfe\0\0\0\0\0\0\0\0\0\0\0\0\x01\
    I\x01\x01\x01\0\0\0\0\0\0\0\0\0\0\0\x03\
    I\x01\xfe\x01\0\0\0\0\0\0\0\0\0\0\0\x01\
    I\x02\x01\x02\0\0\0\0\0\0\0\0\0\0\0\x03\
    K\x01\0\0\0\0\0\0\0\0\0\0\0\0\0\x01\
    K\x02\0\0\0\0\0\0\0\0\0\0\0\0\0\x02\
    K\x02\x01\0\0\0\0\0\0\0\0\0\0\0\0\x01\
    N\0\0\0\x01\0\0\0\0\0\0\0\0\0\0\x02\
    P\0\0\0\0\0\0\0\xff\xff\xff\xff\xff\xff\xff\xff\
    P\x01\0\0\0\x02\0\0\x40\x01\xff\xff\xff\xff\xff\xff\
    S\0\0\0\xff\0\0\0\xff\xff\xff\xff\xff\xff\xff\xff\
    S\x01\0\0\x40\0\0\0\xff\xff\xff\xff\xff\xff\xff\xff\
    S\x02\0\0\x01\x01\0\0\x40\xff\xff\xff\xff\xff\xff\xff\
";
