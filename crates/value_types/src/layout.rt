//! The two layouts of frames.

/// The layout of a frame (docs/frames.md).
#[derive(Clone, Copy, Debug, PartialEq, Eq)]
pub struct Layout {
    /// Whether a frame begins with the mark `IPD2`.
    pub marked: bool,
    /// The number of bytes before the payload, including the mark.
    pub header: usize,
    /// Whether every part takes a multiple of four bytes.
    pub aligned: bool,
    /// The greatest number of bytes of a payload.
    pub most_payload: usize,
}

/// The first bytes of a frame of a layout with a mark.
pub const MARK: [u8; 4] = *b"IPD2";

/// The layout of frames without the mark.
pub const OLD: Layout = Layout {
    marked: false,
    header: 24,
    aligned: false,
    most_payload: 1024,
};

/// The layout of frames with the mark.
pub const NEW: Layout = Layout {
    marked: true,
    header: 28,
    aligned: true,
    most_payload: 4096,
};
