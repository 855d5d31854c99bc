ghost use Rattle.std.specs.Prelude.{◌≡◌};
ghost use Rattle.line_grammar.specs.Offence.{number_of};

/// Why a line is refused. Where a line has several reasons, the one that stands first here is named.
#[derive(Clone, Copy, Debug, PartialEq, Eq)]
pub enum Reason {
    /// Its first 81 bytes have no newline.
    TooLong,
    /// The input ends before its newline.
    Ends,
    /// It has not the form that is due.
    OtherLine,
    /// A number in it is not canonical, or not in its range.
    Number,
    /// The corner is not strictly inside the triangle x > 0, y > 0, x + y < 1.
    CornerOutside,
    /// With this last corner the corners are not those of a strictly convex polygon, counterclockwise.
    NotConvex,
    /// It is not a word.
    NotAWord,
    /// It is a word that is not stable.
    UnstableWord,
    /// The box that it splits is as deep as the tree may be.
    SplitTooDeep,
    /// The box is not apart from the polygon.
    NotApart,
    /// The word's corridor was not shown to be open on the box.
    NotShown,
    /// The box is left uncovered.
    Uncovered,
    /// Another end line is due, or it stands after the end line.
    EndLine,
    /// It stands after the greatest number of nodes.
    TooMany,
    /// The box is too large to be judged at its corners.
    TooShallow,
}

impl Reason {
    /// The number by which a refusal names the reason, from 1 to 15.
    pub fn number(self) -> u8
        ensures { result ≡ number_of self }
    {
        match self {
            Reason::TooLong => 1,
            Reason::Ends => 2,
            Reason::OtherLine => 3,
            Reason::Number => 4,
            Reason::CornerOutside => 5,
            Reason::NotConvex => 6,
            Reason::NotAWord => 7,
            Reason::UnstableWord => 8,
            Reason::SplitTooDeep => 9,
            Reason::NotApart => 10,
            Reason::NotShown => 11,
            Reason::Uncovered => 12,
            Reason::EndLine => 13,
            Reason::TooMany => 14,
            Reason::TooShallow => 15,
        }
    }
}
