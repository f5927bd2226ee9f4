//! What comes next of an image.
use crate::bundle::BundlePlace;

/// What comes next of an image.
#[derive(Clone, Copy)]
pub enum Want {
    /// A number of bytes: 4 for the magic and for the count, 28 for the seven fields, 8 for a gate.
    Field(usize),
    /// The 16 bytes of the bundle at that place.
    Bundle(BundlePlace),
    /// First data bytes: this number of them, or fewer.
    Init(usize),
    /// Nothing: the image is whole.
    End,
    /// Nothing: a test failed.
    Nothing,
}

/// What a reader wants where no bundle comes next: a type of its own, so that `Want::Bundle` is
/// made in one place.
#[derive(Clone, Copy)]
pub(crate) enum OtherWant {
    Field(usize),
    Init(usize),
    End,
    Nothing,
}

/// How far a reader has come: what it reads next.
#[derive(Clone, Copy)]
pub enum Stage {
    /// The four bytes of the format.
    Magic,
    /// How many sandboxes there are.
    Count,
    /// The seven numbers of a sandbox.
    Fields,
    /// A gate.
    Gate,
    /// A bundle of code.
    Code,
    /// First data bytes.
    Init,
    /// Nothing: the image is whole.
    End,
    /// Nothing: a test failed.
    Nothing,
}
