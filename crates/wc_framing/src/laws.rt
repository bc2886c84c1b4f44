//! What holds of the frames of a link, wherever its bytes were cut.

ghost use Rattle.wc_framing.specs.Cut.{AddsPieces, JoinsPieces, ReadsOneWay, CutAnywhere};

/// The bytes of a WebSocket come to the same frames, text and replies wherever they were cut: to
/// those of all bytes at once. So it is of a head that is cut, since its bytes are held until it is
/// whole.
pub fn frames_cut_anywhere()
    ensures adds { AddsPieces }
    ensures joins { JoinsPieces }
    ensures alone { ReadsOneWay }
    ensures anywhere { CutAnywhere }
{}
