//! What bytes are that came after a part of a line.
ghost use Rattle.std.specs.Prelude.{◌≡◌, ◌≤◌};
ghost use Rattle.std.specs.List.{before_first, position};
ghost use Rattle.chpw_control.specs.Dialogs.{is_newline};
ghost use Rattle.chpw_control.specs.Pieces.{IsPiece};

/// The most bytes of a line, without its newline.
const LONGEST: usize = 4200;

/// What bytes are after a part of a line.
pub(crate) enum Piece<'a> {
    /// The rest of the line; its newline comes after that.
    Line(&'a [u8]),
    /// More of the line.
    More,
    /// More than the line may have.
    TooLong,
}

// What these bytes are when `heard` bytes have come before them, none of them a newline.
pub(crate) fn piece_of(heard: usize, bytes: &[u8]) -> Piece<'_>
    requires short { heard ≤ 4200 }
    ensures value { IsPiece result heard bytes.now }
{
    let line = line_in(bytes);
    if line.len() > LONGEST - heard {
        Piece::TooLong
    } else if line.len() < bytes.len() {
        Piece::Line(line)
    } else {
        Piece::More
    }
}

// What stands before the first newline, or all where there is none.
fn line_in(bytes: &[u8]) -> &[u8]
    ensures value { result.now ≡ before_first is_newline bytes.now }
{
    match newline_at(bytes) {
        Some(place) => &bytes[..place],
        None => bytes,
    }
}

// Where the first newline is.
fn newline_at(bytes: &[u8]) -> Option<usize>
    ensures value { result ≡ position is_newline bytes.now }
{
    bytes.iter().position(|byte| *byte == b'\n')
}
