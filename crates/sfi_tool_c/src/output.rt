//! The caller's array, to which an answer's text is written.
ghost use Rattle.std.specs.Prelude.{◌≡◌};
ghost use Rattle.sfi_tool_c.specs.CommandAnswers.{with_text};

/// Writes the front of the text to the front of the array, as much as it holds.
pub(crate) fn write_front(text: &[u8], output: &mut [u8])
    ensures { output.new ≡ with_text text.now output.old }
{
    let count = text.len().min(output.len());
    output[..count].copy_from_slice(&text[..count]);
}
