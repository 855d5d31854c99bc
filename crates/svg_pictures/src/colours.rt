//! The colours of the words of a covering.
ghost use Rattle.std.specs.Prelude.{◌≡◌};
ghost use Rattle.svg_pictures.specs.Colours.{colour_of};

/// The colour of the word of this number, counted from 1. Black where there is no such word.
pub fn colour(number: u32) -> &'static [u8]
    ensures { result.now ≡ colour_of number }
{
    match number {
        1 => b"#d6c6dd",
        2 => b"#ac5834",
        3 => b"#4c3856",
        4 => b"#c9e2c0",
        5 => b"#838383",
        6 => b"#e69f00",
        7 => b"#4c1a02",
        8 => b"#0072b2",
        9 => b"#baa3a1",
        10 => b"#555555",
        11 => b"#f0e442",
        12 => b"#993404",
        13 => b"#90c987",
        14 => b"#cc79a7",
        15 => b"#004488",
        16 => b"#009e73",
        17 => b"#474724",
        18 => b"#99ddff",
        19 => b"#6f6f90",
        20 => b"#d55e00",
        21 => b"#6b303b",
        22 => b"#6fb27a",
        23 => b"#746a74",
        24 => b"#e4bbc2",
        25 => b"#002244",
        26 => b"#56b4e9",
        27 => b"#566a4f",
        28 => b"#c8c859",
        29 => b"#6b4e78",
        30 => b"#99b4cf",
        31 => b"#9b8f53",
        32 => b"#5289c7",
        _ => b"black",
    }
}
