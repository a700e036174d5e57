// The table of refusals.
ghost use Rattle.std.specs.Prelude.{◌≡◌};

use std::error::Error;
use std::fmt;

/// Why an input is refused: one case for each number of the table.
#[derive(Clone, Copy, Debug, PartialEq, Eq, Hash)]
pub enum Refusal {
    /// 1: a sheet size or pitch is outside its limits.
    Size,
    /// 2: a coordinate is outside its limits; a curve has those of its control points.
    Coordinate,
    /// 3: a radius or semi-axis is outside its limits.
    Radius,
    /// 4: s is above 6.
    Pieces,
    /// 5: either lent list has fewer places than the line has cells.
    Room,
    /// 6: a survey's origin is not finite, or its cell size is not finite or not above zero.
    Survey,
    /// 7: a position or length in metres has no cell within the limits.
    NoCell,
    /// 8: bytes are left, but fewer than a record needs.
    Short,
    /// 9: unknown record kind.
    Kind,
    /// 10: record length not the length of its kind.
    Length,
    /// 11: the free bytes of a buffer are fewer than the record takes.
    Full,
    /// 12: a buffer has fewer bytes than the picture takes.
    Buffer,
    /// 13: a picture's header breaks the rules of raw PBM, or names another size than the sheet's.
    Header,
    /// 14: a picture has fewer bytes after its header than its rows take.
    Pixels,
    /// 15: the slice length differs from pitch × height.
    Slice,
    /// 16: record length under 2, so that it has no kind.
    Kindless,
    /// 17: the work slice has fewer than width × height places.
    Work,
    /// 18: the start of a fill is off the sheet.
    Start,
    /// 19: a tally has not one place for each row.
    Places,
    /// 20: a tally is wrong.
    Tally,
}

impl Refusal {
    ghost use Rattle.sheet.specs.Reply.{number};

    /// The refusal's number in the table.
    pub fn number(self) -> u32
        ensures { result ≡ number self }
    {
        match self {
            Refusal::Size => 1,
            Refusal::Coordinate => 2,
            Refusal::Radius => 3,
            Refusal::Pieces => 4,
            Refusal::Room => 5,
            Refusal::Survey => 6,
            Refusal::NoCell => 7,
            Refusal::Short => 8,
            Refusal::Kind => 9,
            Refusal::Length => 10,
            Refusal::Full => 11,
            Refusal::Buffer => 12,
            Refusal::Header => 13,
            Refusal::Pixels => 14,
            Refusal::Slice => 15,
            Refusal::Kindless => 16,
            Refusal::Work => 17,
            Refusal::Start => 18,
            Refusal::Places => 19,
            Refusal::Tally => 20,
        }
    }
}

impl fmt::Display for Refusal {
    ghost use Rattle.std.specs.Prelude.{Some};
    ghost use Rattle.sheet.specs.Reply.{words};

    // the table's words for it
    ghost output = { λ r. Some (words r) };

    fn fmt<W: fmt::Write>(&self, f: &mut fmt::Formatter<W>) -> fmt::Result {
        f.write_str(match self {
            Refusal::Size =>
                "a width or height outside 1 to 4,096, or a pitch below the width or above 8,192",
            Refusal::Coordinate => "a coordinate outside -16,384 to 16,383",
            Refusal::Radius =>
                "a radius or semi-axis outside 0 to 16,383, or a semi-axis of 0 beside one that is not",
            Refusal::Pieces => "an s above 6",
            Refusal::Room =>
                "a lent list with fewer places than the line has cells, or than the file to be rescued has bytes",
            Refusal::Survey =>
                "an origin of the survey that is not finite, or a cell size that is not finite or not above zero",
            Refusal::NoCell => "a position or length in metres with no cell in -16,384 to 16,383",
            Refusal::Short =>
                "a record length that is cut off after 1 byte, or that counts more bytes than are left",
            Refusal::Kind => "an unknown record kind",
            Refusal::Length => "a record length that is not that of its kind",
            Refusal::Full =>
                "a buffer with fewer free bytes than the record takes, or with fewer bytes than the file to be rescued",
            Refusal::Buffer => "a buffer with fewer bytes than the picture takes",
            Refusal::Header =>
                "a picture whose header breaks the rules of raw PBM, or names another size than the sheet's",
            Refusal::Pixels => "a picture with fewer bytes after its header than its rows take",
            Refusal::Slice => "a slice length other than pitch x height",
            Refusal::Kindless => "a record length under 2, which leaves no room for a kind",
            Refusal::Work => "a work slice with fewer than width x height places",
            Refusal::Start => "a start off the sheet",
            Refusal::Places => "a tally with more or fewer places than the sheet has rows",
            Refusal::Tally =>
                "a tally in which the number of a row is not that of its nonzero cells",
        })
    }
}

impl Error for Refusal {}

/// A refusal of a file, with the offset of the field that it names; 0 for one that speaks of what is lent beside it.
#[derive(Clone, Copy, Debug, PartialEq, Eq, Hash)]
pub struct FileRefusal {
    pub refusal: Refusal,
    pub offset: usize,
}

impl From<Refusal> for FileRefusal {
    ghost from_gives = { λ r f. f ≡ record { refusal = r; offset = 0 } };

    fn from(refusal: Refusal) -> FileRefusal {
        FileRefusal { refusal, offset: 0 }
    }
}
