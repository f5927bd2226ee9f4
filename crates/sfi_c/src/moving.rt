//! The call by which C moves a sandbox of an image.
ghost use Rattle.std.specs.Prelude.{◌≡◌, ◌≢◌, ◌≤◌, ◌↔◌, ℕ, List};
ghost use Rattle.sfi_image.specs.declared.fault.LayoutFault.{LayoutFault};
ghost use Rattle.sfi_image.specs.Spelling.{Part};
ghost use Rattle.sfi_image.specs.Parts.{IsImage};
ghost use Rattle.sfi_image.specs.Faults.{IsFault};
ghost use Rattle.sfi_safety.specs.Clean.{IsAccepted};
ghost use Rattle.sfi_image.specs.Keeping.{IsBeyond};
ghost use Rattle.sfi_places.specs.Moving.{IsMoved, IsWrongPlace};
ghost use Rattle.sfi_c.specs.Moves.{move_number, to_place};
ghost use Rattle.sfi_c.specs.private.{move_said_of};

use sfi_formats::Place;
use sfi_places::{MoveFault, move_sandbox};

/// What is said of a sandbox that was to be moved. Its numbers are in `enum sfi_lookup` of
/// include/sfi.h, but that of `NoImage`, which is `SFI_NO_IMAGE`.
#[derive(Clone, Copy, PartialEq, Eq, Debug)]
pub enum MoveAnswer {
    /// The sandbox lies at the place.
    Moved,
    /// The image has fewer sandboxes.
    Beyond,
    /// The bytes are no image.
    NoImage,
    /// The sandbox can't lie at the place, as `NoPlace` of `sfi_places` says.
    NoPlace,
}

impl MoveAnswer {
    ghost use Rattle.sfi_c.specs.Moves.{move_number};

    /// The number by which C knows it, 0 to 3.
    pub fn number(self) -> u32
        ensures { result ≡ move_number self }
    {
        match self {
            MoveAnswer::Moved => 0,
            MoveAnswer::Beyond => 1,
            MoveAnswer::NoImage => 2,
            MoveAnswer::NoPlace => 3,
        }
    }
}

/// What C gets for the answer of `move_sandbox`.
fn move_answer_of(answer: Result<(), MoveFault>) -> MoveAnswer
    ensures { result ≡ move_said_of answer }
{
    match answer {
        Ok(()) => MoveAnswer::Moved,
        Err(MoveFault::NoSandbox) => MoveAnswer::Beyond,
        Err(MoveFault::NoImage(_)) => MoveAnswer::NoImage,
        Err(MoveFault::NoPlace) => MoveAnswer::NoPlace,
    }
}

/// Moves the image's sandbox `number`, counted from 0, so that its code and its data begin at
/// these addresses, and returns the number of a [`MoveAnswer`]. Of the bytes only its bases, its
/// start, its gates' addresses and those in its table of names change. It takes no memory.
#[unsafe(no_mangle)]
pub extern "C" fn sfi_c_move(image: &mut [u8], number: u32, code_base: u32, data_base: u32) -> u32
    ensures known { result ≤ 3 }

    // What each status means.
    ensures moved { result ≡ move_number MoveAnswer.Moved
        → IsMoved image.old number (to_place code_base data_base) image.new }
    ensures beyond { result ≡ move_number MoveAnswer.Beyond → IsBeyond image.old number }
    ensures layout { result ≡ move_number MoveAnswer.NoImage
        → (k : LayoutFault) × IsFault image.old k }
    ensures place { result ≡ move_number MoveAnswer.NoPlace
        → IsWrongPlace image.old number (to_place code_base data_base) }
    ensures unmoved { result ≢ move_number MoveAnswer.Moved → image.new ≡ image.old }

    // Which bytes get each status.
    ensures only_moved { (now : List ℕ)
        → IsMoved image.old number (to_place code_base data_base) now
        → result ≡ move_number MoveAnswer.Moved }
    ensures only_beyond { IsBeyond image.old number → result ≡ move_number MoveAnswer.Beyond }
    ensures only_layout { (k : LayoutFault) → IsFault image.old k
        → result ≡ move_number MoveAnswer.NoImage }
    ensures only_place { IsWrongPlace image.old number (to_place code_base data_base)
        → result ≡ move_number MoveAnswer.NoPlace }

    // The verdict on the bytes doesn't change.
    ensures accepted { result ≡ move_number MoveAnswer.Moved → (ps qs : List Part)
        → IsImage image.old ps → IsImage image.new qs
        → IsAccepted image.old ps ↔ IsAccepted image.new qs }
{
    let to = Place {
        code_base,
        data_base,
    };
    move_answer_of(move_sandbox(image, number, to)).number()
}
