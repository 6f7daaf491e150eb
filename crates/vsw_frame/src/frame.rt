//! A frame that was read.

ghost use Rattle.std.specs.Prelude.{◌≡◌, ◌≤◌};
ghost use Rattle.vsw_frame.specs.Read.{IsRead};

use vsw_base::{Control, Headers, Sizes, Stack};

/// What is left of a frame without its first encapsulations. What stands in it after its lengths is told by its bytes.
#[derive(Clone, Copy, Debug)]
pub struct Level<'a> {
    /// From the Ethernet header on.
    pub bytes: &'a [u8],
}

/// What is left of a frame once encapsulations went, outermost level first.
#[derive(Clone, Copy)]
pub(crate) struct Levels<'a> {
    pub first: Level<'a>,
    pub second: Option<Level<'a>>,
    pub third: Option<Level<'a>>,
}

/// Room for the headers of a frame. It lives on: make it once, and read each frame into it.
#[derive(Drop)]
pub struct FrameRoom {
    pub(crate) headers: Headers,
    pub(crate) stack: Stack,
}

impl FrameRoom {
    /// It clears eighteen places.
    pub fn new() -> FrameRoom {
        FrameRoom {
            headers: Headers::new(),
            stack: Stack::room(),
        }
    }
}

/// A frame that was read. It borrows the frame's bytes, and the room in which its headers stand.
#[derive(Drop)]
pub struct Frame<'a> {
    pub(crate) stack: &'a Stack,
    pub(crate) control: Control,
    pub(crate) sizes: Sizes,
    /// The levels, outermost first.
    pub(crate) first: Level<'a>,
    pub(crate) second: Option<Level<'a>>,
    pub(crate) third: Option<Level<'a>>,
    pub(crate) payload: &'a [u8],
    ghost read: { ∥ IsRead stack.now control sizes first second third payload.now ∥₁ },
}

impl<'a> Frame<'a> {
    ghost use Rattle.vsw_base.specs.Frame.{sizes_of};
    ghost use Rattle.vsw_frame.specs.Frame.{parts};
    ghost use Rattle.vsw_frame.specs.Tiles.{outermost};

    /// The headers.
    pub fn stack(&self) -> &Stack
        ensures { result.now ≡ (parts self.now).stack }
    {
        self.stack
    }

    /// What the flags of an unfragmented innermost TCP header ask for.
    pub fn control(&self) -> Control
        ensures { result ≡ (parts self.now).control }
    {
        self.control
    }

    /// Bytes of the frame, and of what is left without its first one and two encapsulations.
    pub fn sizes(&self) -> Sizes
        ensures { result ≡ sizes_of (parts self.now).levels }
    {
        self.sizes
    }

    /// All bytes of the frame.
    pub fn bytes(&self) -> &'a [u8]
        ensures { result.now ≡ outermost (parts self.now).levels }
    {
        self.first.bytes
    }

    /// What follows the last header that was read.
    pub fn payload(&self) -> &'a [u8]
        ensures { result.now ≡ (parts self.now).payload }
    {
        self.payload
    }
}
